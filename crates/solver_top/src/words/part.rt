// The word behind `part`: NAME.
ghost use Rattle.std.specs.Prelude.{◌≡◌, ◌≢◌, ◌∷◌, codes, IfOk, IfErr, MatchOption};
ghost use Rattle.solver_top.specs.Words.{words_of, part_word, IsLineOf};
ghost use Rattle.solver_top.specs.WordFaults.{IsLineFaultAt};

use crate::words::Command;
use report_answers::Part;

fn part_of(word: &str) -> Option<Part>
    ensures { MatchOption result ((part : _) → word.now ≢ part_word part) (λ part. word.now ≡ part_word part) }
{
    match word {
        "instance" => Some(Part::Instance),
        "solution" => Some(Part::Solution),
        "certificate" => Some(Part::Certificate),
        "journal" => Some(Part::Journal),
        "summary" => Some(Part::Summary),
        _ => None,
    }
}

/// What stands behind `part`.
pub fn after_part(rest: &[String]) -> Result<Command, usize>
    ensures ok { IfOk result (IsLineOf (codes "part" ∷ words_of rest.now)) }
    ensures err { IfErr result (IsLineFaultAt (codes "part" ∷ words_of rest.now)) }
{
    match rest {
        [] => Err(1),
        [word, rest @ ..] => match part_of(word.as_str()) {
            Some(part) => after_name(part, rest),
            None => Err(1),
        },
    }
}

// What stands behind `part NAME`.
fn after_name(part: Part, rest: &[String]) -> Result<Command, usize>
    ensures ok { IfOk result (IsLineOf (codes "part" ∷ part_word part ∷ words_of rest.now)) }
    ensures err { IfErr result (IsLineFaultAt (codes "part" ∷ part_word part ∷ words_of rest.now)) }
{
    if rest.is_empty() {
        Ok(Command::Part(part))
    } else {
        Err(2)
    }
}
