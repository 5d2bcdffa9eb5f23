// The words of the command line.

mod made;
mod moments;
mod numbers;
mod part;
mod solve;

ghost use Rattle.std.specs.Prelude.{◌≡◌, IfOk, IfErr, ◌∷◌, codes};
ghost use Rattle.solver_top.specs.Answers.{reads_input};
ghost use Rattle.solver_top.specs.Words.{words_of, IsLineOf, IsFaultAt};
ghost use Rattle.solver_top.specs.WordFaults.{IsLineFaultAt};

use self::made::{after_gen, after_gen_solve};
use self::moments::after_rewind;
use self::part::after_part;
use self::solve::after_solve;
use generator::Kind;
use report_answers::Part;

/// A line of words that the program knows, with its numbers. (This project's own.)
#[derive(Clone, Copy, Debug, PartialEq, Eq)]
pub enum Command {
    /// `judge`: judges the bundle of an instance and a solution.
    Judge,
    /// `start`: writes the sweep triangulation of an instance.
    Start,
    /// `solve E B ROUNDS SEED`: solves an instance and writes the report.
    Solve {
        /// How many edit workers, at most 16.
        edit_workers: u32,
        /// How many bound workers, at most 16.
        bound_workers: u32,
        /// How many rounds each worker makes, at most 1,000.
        rounds: u32,
        /// Any number of 64 bits.
        seed: u64,
    },
    /// `check`: says whether a report is right, or which part of it fails first.
    Check,
    /// `part NAME`: writes one line of a report.
    Part(Part),
    /// `weave`: plays a script of several callers on one core.
    Weave,
    /// `rewind K`: writes the segments that were kept after the first commits of a report.
    Rewind {
        /// How many commits, at most 200,000.
        commits: u32,
    },
    /// `edit`: plays a session of edits with undo on one core.
    EditSession,
    /// `gen KIND N SEED`: writes an instance made from a number.
    Gen {
        /// The kind, by its word.
        kind: Kind,
        /// How many points, from 3 to 5,000.
        n: u32,
        /// Any number of 64 bits.
        seed: u64,
    },
    /// `gen-solve KIND N SEED`: writes the summary of such an instance's report.
    GenSolve {
        /// The kind, by its word.
        kind: Kind,
        /// How many points, from 3 to 5,000.
        n: u32,
        /// Any number of 64 bits.
        seed: u64,
    },
}

impl Command {
    /// Whether the command reads its input.
    pub fn reads_input(self) -> bool
        ensures { result ≡ reads_input self }
    {
        match self {
            Command::Judge | Command::Start | Command::Solve { .. } => true,
            Command::Check | Command::Part(_) | Command::Weave => true,
            Command::Rewind { .. } | Command::EditSession => true,
            Command::Gen { .. } | Command::GenSolve { .. } => false,
        }
    }
}

/// The command of the words. The error is the position of the first word that no line allows after those before it, or
/// the number of words where they are the beginning of a longer line or there are none.
pub fn read_words(words: &[String]) -> Result<Command, usize>
    ensures ok { IfOk result (IsLineOf (words_of words.now)) }
    ensures err { IfErr result (IsFaultAt (words_of words.now)) }
{
    by_first_word(words)
}

// The command of the words, by the first of them.
fn by_first_word(words: &[String]) -> Result<Command, usize>
    ensures ok { IfOk result (IsLineOf (words_of words.now)) }
    ensures err { IfErr result (IsLineFaultAt (words_of words.now)) }
{
    match words {
        [] => Err(0),
        [first, rest @ ..] => match first.as_str() {
            "judge" => after_judge(rest),
            "start" => after_start(rest),
            "solve" => after_solve(rest),
            "check" => after_check(rest),
            "part" => after_part(rest),
            "weave" => after_weave(rest),
            "rewind" => after_rewind(rest),
            "edit" => after_edit(rest),
            "gen" => after_gen(rest),
            "gen-solve" => after_gen_solve(rest),
            _ => Err(0),
        },
    }
}

// What stands behind `judge`.
fn after_judge(rest: &[String]) -> Result<Command, usize>
    ensures ok { IfOk result (IsLineOf (codes "judge" ∷ words_of rest.now)) }
    ensures err { IfErr result (IsLineFaultAt (codes "judge" ∷ words_of rest.now)) }
{
    if rest.is_empty() {
        Ok(Command::Judge)
    } else {
        Err(1)
    }
}

// What stands behind `start`.
fn after_start(rest: &[String]) -> Result<Command, usize>
    ensures ok { IfOk result (IsLineOf (codes "start" ∷ words_of rest.now)) }
    ensures err { IfErr result (IsLineFaultAt (codes "start" ∷ words_of rest.now)) }
{
    if rest.is_empty() {
        Ok(Command::Start)
    } else {
        Err(1)
    }
}

// What stands behind `check`.
fn after_check(rest: &[String]) -> Result<Command, usize>
    ensures ok { IfOk result (IsLineOf (codes "check" ∷ words_of rest.now)) }
    ensures err { IfErr result (IsLineFaultAt (codes "check" ∷ words_of rest.now)) }
{
    if rest.is_empty() {
        Ok(Command::Check)
    } else {
        Err(1)
    }
}

// What stands behind `weave`.
fn after_weave(rest: &[String]) -> Result<Command, usize>
    ensures ok { IfOk result (IsLineOf (codes "weave" ∷ words_of rest.now)) }
    ensures err { IfErr result (IsLineFaultAt (codes "weave" ∷ words_of rest.now)) }
{
    if rest.is_empty() {
        Ok(Command::Weave)
    } else {
        Err(1)
    }
}

// What stands behind `edit`.
fn after_edit(rest: &[String]) -> Result<Command, usize>
    ensures ok { IfOk result (IsLineOf (codes "edit" ∷ words_of rest.now)) }
    ensures err { IfErr result (IsLineFaultAt (codes "edit" ∷ words_of rest.now)) }
{
    if rest.is_empty() {
        Ok(Command::EditSession)
    } else {
        Err(1)
    }
}
