// Cores of small starts, and calls of theirs whose conditions are tested first.
ghost use Rattle.std.specs.Prelude.{IsTrue, length};
ghost use Rattle.replay.specs.Applied.{AreWithin, IsWithin};

use journal_defs::{Commit, Edit, EditList};
use plane::{Pair, Point, Points};
use replay::{ApplyFault, Core, MOST_CALLER, MOST_COMMITS};
use std::alloc::Global;
use std::process::Abort;
use std::test::Fail;

pub fn points_of(rt: &impl Abort, alloc: Global, list: &[(i64, i64)]) -> Result<Points, Fail> {
    let mut points = Vec::new(alloc);
    for (x, y) in list {
        points.push(Point { x: *x, y: *y })?;
    }
    assert!(rt; points.len() < 5001);
    Ok(Points::make(points)?)
}

pub fn core_of(rt: &impl Abort, alloc: Global, list: &[(i64, i64)]) -> Result<Core, Fail> {
    let points = points_of(rt, alloc, list)?;
    let all = triangulate::start(alloc, &points)?;
    match Core::make(points, all) {
        Ok(core) => Ok(core),
        Err(_) => Err(Fail::from("no memory")),
    }
}

pub fn pair(rt: &impl Abort, i: u32, j: u32) -> Pair {
    assert!(rt; i != j);
    Pair::of(i, j)
}

fn is_within(count: u32, edit: &Edit) -> bool
    ensures { IsTrue result → IsWithin count edit.now }
{
    match *edit {
        Edit::Drop(e) => e.hi() < count,
        Edit::Keep(e) => e.hi() < count,
        Edit::Flip { from, to } => from.hi() < count && to.hi() < count,
    }
}

pub fn are_within(count: u32, edits: &[Edit]) -> bool
    ensures { IsTrue result → AreWithin count edits.now }
{
    edits.iter().all(|edit| is_within(count, edit))
}

/// What the core answers to a commit of these edits.
pub fn told(
    core: &mut Core,
    caller: u32,
    seq: u32,
    edits: &[Edit],
) -> Result<Result<u64, ApplyFault>, Fail> {
    if edits.len() < 1 || edits.len() > 8 {
        return Err(Fail::from("no list of edits"));
    }
    if caller > MOST_CALLER || core.journal().len() >= MOST_COMMITS {
        return Err(Fail::from("no commit for this core"));
    }
    let list = EditList::make(edits);
    if !are_within(core.points().len(), list.as_slice()) {
        return Err(Fail::from("an end beyond the points"));
    }
    Ok(core.apply(Commit {
        caller,
        seq,
        edits: list,
    }))
}

/// What its sweep answers.
pub fn swept(core: &mut Core) -> Result<u32, Fail> {
    let kept = core.kept()?.len();
    if kept > MOST_COMMITS || core.journal().len() > MOST_COMMITS - kept {
        return Err(Fail::from("too many commits"));
    }
    Ok(core.sweep()?)
}
