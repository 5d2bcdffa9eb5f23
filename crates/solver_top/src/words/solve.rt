// The words behind `solve`: E B ROUNDS SEED.
ghost use Rattle.std.specs.Prelude.{◌≤◌, ◌∷◌, codes, IfOk, IfErr};
ghost use Rattle.std.specs.Fmt.{decimal};
ghost use Rattle.solver_top.specs.Words.{words_of, IsLineOf};
ghost use Rattle.solver_top.specs.WordFaults.{IsLineFaultAt};

use crate::words::Command;
use crate::words::numbers::{rounds_of, seed_of, workers_of};

/// What stands behind `solve`.
pub fn after_solve(rest: &[String]) -> Result<Command, usize>
    ensures ok { IfOk result (IsLineOf (codes "solve" ∷ words_of rest.now)) }
    ensures err { IfErr result (IsLineFaultAt (codes "solve" ∷ words_of rest.now)) }
{
    match rest {
        [] => Err(1),
        [word, rest @ ..] => match workers_of(word.as_str()) {
            Some(edit_workers) => after_edit_workers(edit_workers, rest),
            None => Err(1),
        },
    }
}

// What stands behind `solve E`.
fn after_edit_workers(edit_workers: u32, rest: &[String]) -> Result<Command, usize>
    requires { edit_workers ≤ 16 }
    ensures ok { IfOk result (IsLineOf (codes "solve" ∷ decimal edit_workers ∷ words_of rest.now)) }
    ensures err { IfErr result (IsLineFaultAt (codes "solve" ∷ decimal edit_workers ∷ words_of rest.now)) }
{
    match rest {
        [] => Err(2),
        [word, rest @ ..] => match workers_of(word.as_str()) {
            Some(bound_workers) => after_bound_workers(edit_workers, bound_workers, rest),
            None => Err(2),
        },
    }
}

// What stands behind `solve E B`.
fn after_bound_workers(
    edit_workers: u32,
    bound_workers: u32,
    rest: &[String],
) -> Result<Command, usize>
    requires edit_workers { edit_workers ≤ 16 }
    requires bound_workers { bound_workers ≤ 16 }
    ensures ok { IfOk result (IsLineOf (codes "solve" ∷ decimal edit_workers ∷ decimal bound_workers
        ∷ words_of rest.now)) }
    ensures err { IfErr result (IsLineFaultAt (codes "solve" ∷ decimal edit_workers ∷ decimal bound_workers
        ∷ words_of rest.now)) }
{
    match rest {
        [] => Err(3),
        [word, rest @ ..] => match rounds_of(word.as_str()) {
            Some(rounds) => after_rounds(edit_workers, bound_workers, rounds, rest),
            None => Err(3),
        },
    }
}

// What stands behind `solve E B ROUNDS`.
fn after_rounds(
    edit_workers: u32,
    bound_workers: u32,
    rounds: u32,
    rest: &[String],
) -> Result<Command, usize>
    requires edit_workers { edit_workers ≤ 16 }
    requires bound_workers { bound_workers ≤ 16 }
    requires rounds { rounds ≤ 1000 }
    ensures ok { IfOk result (IsLineOf (codes "solve" ∷ decimal edit_workers ∷ decimal bound_workers
        ∷ decimal rounds ∷ words_of rest.now)) }
    ensures err { IfErr result (IsLineFaultAt (codes "solve" ∷ decimal edit_workers ∷ decimal bound_workers
        ∷ decimal rounds ∷ words_of rest.now)) }
{
    match rest {
        [] => Err(4),
        [word, rest @ ..] => match seed_of(word.as_str()) {
            Some(seed) => after_seed(edit_workers, bound_workers, rounds, seed, rest),
            None => Err(4),
        },
    }
}

// What stands behind `solve E B ROUNDS SEED`.
fn after_seed(
    edit_workers: u32,
    bound_workers: u32,
    rounds: u32,
    seed: u64,
    rest: &[String],
) -> Result<Command, usize>
    requires edit_workers { edit_workers ≤ 16 }
    requires bound_workers { bound_workers ≤ 16 }
    requires rounds { rounds ≤ 1000 }
    ensures ok { IfOk result (IsLineOf (codes "solve" ∷ decimal edit_workers ∷ decimal bound_workers
        ∷ decimal rounds ∷ decimal seed ∷ words_of rest.now)) }
    ensures err { IfErr result (IsLineFaultAt (codes "solve" ∷ decimal edit_workers ∷ decimal bound_workers
        ∷ decimal rounds ∷ decimal seed ∷ words_of rest.now)) }
{
    if rest.is_empty() {
        Ok(Command::Solve {
            edit_workers,
            bound_workers,
            rounds,
            seed,
        })
    } else {
        Err(5)
    }
}
