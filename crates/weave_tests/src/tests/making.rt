// Cores of small starts, and lists of steps whose conditions are tested first.
ghost use Rattle.std.specs.Prelude.{IsTrue, All};
ghost use Rattle.replay.specs.Applied.{AreWithin, IsWithin};
ghost use Rattle.weave.specs.Answers.{IsStepOf};

use journal_defs::{Edit, EditList};
use plane::{Pair, Point, Points};
use replay::{Core, MOST_CALLER, MOST_COMMITS};
use std::alloc::Global;
use std::process::Abort;
use std::test::Fail;
use weave::{Step, StepAnswer, run_steps};

pub const SQUARE: [(i64, i64); 4] = [(0, 0), (0, 4), (4, 0), (4, 4)];

pub const GRID: [(i64, i64); 6] = [(0, 0), (10, 0), (20, 0), (0, 10), (10, 10), (20, 10)];

pub fn core_of(rt: &impl Abort, alloc: Global, list: &[(i64, i64)]) -> Result<Core, Fail> {
    let mut points = Vec::new(alloc);
    for (x, y) in list {
        points.push(Point { x: *x, y: *y })?;
    }
    assert!(rt; points.len() < 5001);
    let points = Points::make(points)?;
    let all = triangulate::start(alloc, &points)?;
    match Core::make(points, all) {
        Ok(core) => Ok(core),
        Err(_) => Err(Fail::from("no memory")),
    }
}

pub fn take(caller: u32, place: u32) -> Step {
    Step::Take { caller, place }
}

pub fn back(caller: u32, place: u32) -> Step {
    Step::Back { caller, place }
}

pub fn append(caller: u32, edit: Edit) -> Step {
    Step::Append {
        caller,
        edits: EditList::make(&[edit]),
    }
}

pub fn pair(i: u32, j: u32) -> Pair {
    if i != j {
        Pair::of(i, j)
    } else if i == 0 {
        Pair::of(0, 1)
    } else {
        Pair::of(0, i)
    }
}

fn is_within(count: u32, edit: &Edit) -> bool
    ensures { IsTrue result → IsWithin count edit.now }
{
    match *edit {
        Edit::Drop(e) => e.hi() < count,
        Edit::Keep(e) => e.hi() < count,
        Edit::Flip { from, to } => from.hi() < count && to.hi() < count,
    }
}

fn are_within(count: u32, edits: &[Edit]) -> bool
    ensures { IsTrue result → AreWithin count edits.now }
{
    edits.iter().all(|edit| is_within(count, edit))
}

fn is_step(count: u32, step: &Step) -> bool
    ensures { IsTrue result → IsStepOf count step.now }
{
    match step {
        Step::Take { caller, place } => *caller <= MOST_CALLER && *place <= count,
        Step::Append { caller, edits } => {
            *caller <= MOST_CALLER && are_within(count, edits.as_slice())
        }
        Step::Back { caller, place } => *caller <= MOST_CALLER && *place <= count,
    }
}

fn are_steps(count: u32, steps: &[Step]) -> bool
    ensures { IsTrue result → All (IsStepOf count) steps.now }
{
    steps.iter().all(|step| is_step(count, step))
}

/// What the weave answers.
pub fn told(alloc: Global, core: &mut Core, steps: &[Step]) -> Result<Vec<StepAnswer>, Fail> {
    if !are_steps(core.points().len(), steps) {
        return Err(Fail::from("no step of these points"));
    }
    if steps.len() > MOST_COMMITS || core.journal().len() > MOST_COMMITS - steps.len() {
        return Err(Fail::from("too many commits"));
    }
    Ok(run_steps(alloc, core, steps)?)
}
