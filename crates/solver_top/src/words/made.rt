// The words behind `gen` and `gen-solve`: KIND N SEED.
ghost use Rattle.std.specs.Prelude.{◌≡◌, ◌≢◌, ◌≤◌, ◌∷◌, codes, IfOk, IfErr, MatchOption};
ghost use Rattle.std.specs.Fmt.{decimal};
ghost use Rattle.generator.specs.Names.{kind_word};
ghost use Rattle.solver_top.specs.Words.{words_of, gen_words, IsLineOf};
ghost use Rattle.solver_top.specs.WordFaults.{IsFaultBehind, IsLineFaultAt, IsMadeLine};

use crate::words::Command;
use crate::words::numbers::{count_of, seed_of};
use generator::Kind;

// An instance that is made from a number.
#[derive(Clone, Copy, Debug)]
struct Made {
    kind: Kind,
    n: u32,
    seed: u64,
}

/// What stands behind `gen`.
pub fn after_gen(rest: &[String]) -> Result<Command, usize>
    ensures ok { IfOk result (IsLineOf (codes "gen" ∷ words_of rest.now)) }
    ensures err { IfErr result (IsLineFaultAt (codes "gen" ∷ words_of rest.now)) }
{
    match made_of(rest) {
        Ok(made) => Ok(Command::Gen {
            kind: made.kind,
            n: made.n,
            seed: made.seed,
        }),
        Err(k) => Err(k + 1),
    }
}

/// What stands behind `gen-solve`.
pub fn after_gen_solve(rest: &[String]) -> Result<Command, usize>
    ensures ok { IfOk result (IsLineOf (codes "gen-solve" ∷ words_of rest.now)) }
    ensures err { IfErr result (IsLineFaultAt (codes "gen-solve" ∷ words_of rest.now)) }
{
    match made_of(rest) {
        Ok(made) => Ok(Command::GenSolve {
            kind: made.kind,
            n: made.n,
            seed: made.seed,
        }),
        Err(k) => Err(k + 1),
    }
}

// KIND N SEED. A fault is counted from the first of these words.
fn made_of(words: &[String]) -> Result<Made, usize>
    ensures ok { IfOk result (IsMadeLine (words_of words.now)) }
    ensures err { IfErr result (IsFaultBehind gen_words (words_of words.now)) }
    ensures low { IfErr result (λ k. k ≤ 3) }
{
    match words {
        [] => Err(0),
        [word, rest @ ..] => match kind_of(word.as_str()) {
            Some(kind) => after_kind(kind, rest),
            None => Err(0),
        },
    }
}

fn kind_of(word: &str) -> Option<Kind>
    ensures { MatchOption result ((kind : _) → word.now ≢ kind_word kind) (λ kind. word.now ≡ kind_word kind) }
{
    match word {
        "scatter" => Some(Kind::Scatter),
        "grid" => Some(Kind::Grid),
        "ring" => Some(Kind::Ring),
        "wide" => Some(Kind::Wide),
        _ => None,
    }
}

// What stands behind KIND.
fn after_kind(kind: Kind, rest: &[String]) -> Result<Made, usize>
    ensures ok { IfOk result (IsMadeLine (kind_word kind ∷ words_of rest.now)) }
    ensures err { IfErr result (IsFaultBehind gen_words (kind_word kind ∷ words_of rest.now)) }
    ensures low { IfErr result (λ k. k ≤ 3) }
{
    match rest {
        [] => Err(1),
        [word, rest @ ..] => match count_of(word.as_str()) {
            Some(n) => after_count(kind, n, rest),
            None => Err(1),
        },
    }
}

// What stands behind KIND N.
fn after_count(kind: Kind, n: u32, rest: &[String]) -> Result<Made, usize>
    requires least { 3 ≤ n }
    requires most { n ≤ 5000 }
    ensures ok { IfOk result (IsMadeLine (kind_word kind ∷ decimal n ∷ words_of rest.now)) }
    ensures err { IfErr result (IsFaultBehind gen_words (kind_word kind ∷ decimal n ∷ words_of rest.now)) }
    ensures low { IfErr result (λ k. k ≤ 3) }
{
    match rest {
        [] => Err(2),
        [word, rest @ ..] => match seed_of(word.as_str()) {
            Some(seed) => after_seed(kind, n, seed, rest),
            None => Err(2),
        },
    }
}

// What stands behind KIND N SEED.
fn after_seed(kind: Kind, n: u32, seed: u64, rest: &[String]) -> Result<Made, usize>
    requires least { 3 ≤ n }
    requires most { n ≤ 5000 }
    ensures ok { IfOk result (IsMadeLine (kind_word kind ∷ decimal n ∷ decimal seed ∷ words_of rest.now)) }
    ensures err { IfErr result
        (IsFaultBehind gen_words (kind_word kind ∷ decimal n ∷ decimal seed ∷ words_of rest.now)) }
    ensures low { IfErr result (λ k. k ≤ 3) }
{
    if rest.is_empty() {
        Ok(Made { kind, n, seed })
    } else {
        Err(3)
    }
}
