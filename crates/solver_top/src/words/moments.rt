// The word behind `rewind`: K.
ghost use Rattle.std.specs.Prelude.{◌≡◌, ◌≤◌, ◌∷◌, codes, IfOk, IfErr};
ghost use Rattle.std.specs.Fmt.{decimal};
ghost use Rattle.solver_top.specs.Words.{words_of, IsLineOf};
ghost use Rattle.solver_top.specs.WordFaults.{IsLineFaultAt};

use crate::words::Command;
use crate::words::numbers::commits_of;

/// What stands behind `rewind`.
pub fn after_rewind(rest: &[String]) -> Result<Command, usize>
    ensures ok { IfOk result (IsLineOf (codes "rewind" ∷ words_of rest.now)) }
    ensures err { IfErr result (IsLineFaultAt (codes "rewind" ∷ words_of rest.now)) }
{
    match rest {
        [] => Err(1),
        [word, rest @ ..] => match commits_of(word.as_str()) {
            Some(commits) => after_commits(commits, rest),
            None => Err(1),
        },
    }
}

// What stands behind `rewind K`.
fn after_commits(commits: u32, rest: &[String]) -> Result<Command, usize>
    requires { commits ≤ 200000 }
    ensures ok { IfOk result (IsLineOf (codes "rewind" ∷ decimal commits ∷ words_of rest.now)) }
    ensures err { IfErr result (IsLineFaultAt (codes "rewind" ∷ decimal commits ∷ words_of rest.now)) }
{
    if rest.is_empty() {
        Ok(Command::Rewind { commits })
    } else {
        Err(2)
    }
}
