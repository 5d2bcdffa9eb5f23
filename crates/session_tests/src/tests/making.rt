// Cores of small starts, and sessions on them whose conditions are tested first.
ghost use Rattle.std.specs.Prelude.{IsTrue};
ghost use Rattle.std.specs.List.{All};
ghost use Rattle.replay.specs.Applied.{AreWithin, IsWithin};
ghost use Rattle.edit_session.specs.Sessions.{IsCommandOf};

use cost_defs::Costs;
use edit_session::{EditCommand, Played, session};
use journal_defs::{Edit, EditList};
use plane::{Pair, Point, Points};
use replay::Core;
use std::alloc::Global;
use std::process::Abort;
use std::test::Fail;

pub const SQUARE: [(i64, i64); 4] = [(0, 0), (0, 4), (4, 0), (4, 4)];

pub const GRID: [(i64, i64); 9] = [
    (0, 0),
    (10, 0),
    (20, 0),
    (0, 10),
    (10, 10),
    (20, 10),
    (0, 20),
    (10, 20),
    (20, 20),
];

pub fn core_of(rt: &impl Abort, alloc: Global, list: &[(i64, i64)]) -> Result<Core, Fail> {
    let mut points = Vec::new(alloc);
    for (x, y) in list {
        points.push(Point { x: *x, y: *y })?;
    }
    assert!(rt; points.len() < 5001);
    let points = Points::make(points)?;
    let all = triangulate::start(alloc, &points)?;
    match Core::make(points, all) {
        Ok(core) => Ok(core),
        Err(_) => Err(Fail::from("no memory")),
    }
}

pub fn pair(i: u32, j: u32) -> Pair {
    if i != j {
        Pair::of(i, j)
    } else if i == 0 {
        Pair::of(0, 1)
    } else {
        Pair::of(0, i)
    }
}

/// A commit of edits as a command.
pub fn commit(edits: &[Edit]) -> Result<EditCommand, Fail> {
    if edits.len() < 1 || edits.len() > 8 {
        return Err(Fail::from("no list of edits"));
    }
    Ok(EditCommand::Commit(EditList::make(edits)))
}

fn is_within(count: u32, edit: &Edit) -> bool
    ensures { IsTrue result → IsWithin count edit.now }
{
    match *edit {
        Edit::Drop(e) => e.hi() < count,
        Edit::Keep(e) => e.hi() < count,
        Edit::Flip { from, to } => from.hi() < count && to.hi() < count,
    }
}

fn are_within(count: u32, edits: &[Edit]) -> bool
    ensures { IsTrue result → AreWithin count edits.now }
{
    edits.iter().all(|edit| is_within(count, edit))
}

fn is_command(count: u32, command: &EditCommand) -> bool
    ensures { IsTrue result → IsCommandOf count command.now }
{
    match command {
        EditCommand::Look(v) => *v < count,
        EditCommand::Commit(edits) => are_within(count, edits.as_slice()),
        EditCommand::Undo => true,
        EditCommand::Bound => true,
    }
}

fn are_commands(count: u32, commands: &[EditCommand]) -> bool
    ensures { IsTrue result → All (IsCommandOf count) commands.now }
{
    commands.iter().all(|command| is_command(count, command))
}

/// The session that is played on a core with an empty journal.
pub fn played(
    alloc: Global,
    core: Core,
    costs: &Costs,
    commands: &[EditCommand],
) -> Result<Played, Fail> {
    if !core.journal().is_empty() || commands.len() > 100_000 {
        return Err(Fail::from("no session for this core"));
    }
    if !are_commands(core.points().len(), commands) {
        return Err(Fail::from("a number beyond the points"));
    }
    match session(alloc, core, costs, commands) {
        Ok(played) => Ok(played),
        Err(_) => Err(Fail::from("no memory")),
    }
}
