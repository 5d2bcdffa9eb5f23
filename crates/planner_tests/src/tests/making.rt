// Cores of small starts, and regions of looks at some of their vertices.
ghost use Rattle.std.specs.Prelude.{◌≡◌, IfOk, IsTrue};
ghost use Rattle.replay.specs.Applied.{AreWithin, IsWithin};
ghost use Rattle.planner.specs.Region.{AreFor};
ghost use Rattle.planner_tests.specs.Regions.{IsAgreed};

use edit::Look;
use index_sets::Entry;
use journal_defs::{Commit, Edit, EditList};
use plane::{Pair, Point, Points};
use planner::{Region, agree};
use replay::{ApplyFault, Core, MOST_CALLER, MOST_COMMITS};
use std::alloc::Global;
use std::process::Abort;
use std::test::Fail;

pub fn points_of(rt: &impl Abort, alloc: Global, list: &[(i64, i64)]) -> Result<Points, Fail> {
    let mut points = Vec::new(alloc);
    for (x, y) in list {
        points.push(Point { x: *x, y: *y })?;
    }
    assert!(rt; points.len() < 5001);
    Ok(Points::make(points)?)
}

pub fn core_of(rt: &impl Abort, alloc: Global, list: &[(i64, i64)]) -> Result<Core, Fail> {
    let points = points_of(rt, alloc, list)?;
    let all = triangulate::start(alloc, &points)?;
    match Core::make(points, all) {
        Ok(core) => Ok(core),
        Err(_) => Err(Fail::from("no memory")),
    }
}

/// The pair of two points, or some pair where they are one.
pub fn pair(i: u32, j: u32) -> Pair {
    if i != j {
        Pair::of(i, j)
    } else if i == 0 {
        Pair::of(0, 1)
    } else {
        Pair::of(0, i)
    }
}

fn is_within(count: u32, edit: &Edit) -> bool
    ensures { IsTrue result → IsWithin count edit.now }
{
    match *edit {
        Edit::Drop(e) => e.hi() < count,
        Edit::Keep(e) => e.hi() < count,
        Edit::Flip { from, to } => from.hi() < count && to.hi() < count,
    }
}

fn are_within(count: u32, edits: &[Edit]) -> bool
    ensures { IsTrue result → AreWithin count edits.now }
{
    edits.iter().all(|edit| is_within(count, edit))
}

/// What the core answers to the next commit of caller 1 with these edits.
pub fn told(core: &mut Core, edits: &[Edit]) -> Result<Result<u64, ApplyFault>, Fail>
    ensures { core.new.points ≡ core.old.points }
{
    if edits.len() < 1 || edits.len() > 8 {
        return Err(Fail::from("no list of edits"));
    }
    if 1 > MOST_CALLER || core.journal().len() >= MOST_COMMITS {
        return Err(Fail::from("no commit for this core"));
    }
    let list = EditList::make(edits);
    if !are_within(core.points().len(), list.as_slice()) {
        return Err(Fail::from("an end beyond the points"));
    }
    let seq = core.count(1).saturating_add(1);
    let commit = Commit {
        caller: 1,
        seq,
        edits: list,
    };
    match core.apply(commit) {
        Ok(number) => Ok(Ok(number)),
        Err(fault) => Ok(Err(fault)),
    }
}

/// The edits are taken as the next commit.
pub fn enter(core: &mut Core, edits: &[Edit]) -> Result<u64, Fail>
    ensures { core.new.points ≡ core.old.points }
{
    match told(core, edits)? {
        Ok(number) => Ok(number),
        Err(_) => Err(Fail::from("a commit was refused")),
    }
}

/// What its sweep answers.
pub fn swept(core: &mut Core) -> Result<u32, Fail> {
    let kept = core.kept()?.len();
    if kept > MOST_COMMITS || core.journal().len() > MOST_COMMITS - kept {
        return Err(Fail::from("too many commits"));
    }
    Ok(core.sweep()?)
}

/// The number of the last commit that touches a vertex, by all commits.
pub fn last_touch(core: &Core, v: u32) -> u64 {
    let mut last = 0;
    let mut number = 0u64;
    for commit in core.journal() {
        number = number.saturating_add(1);
        if commit.touches(v) {
            last = number;
        }
    }
    last
}

/// The star of a vertex now, with the number of the last commit that touches it.
pub fn look_at(core: &Core, v: u32) -> Result<Look, Fail>
    ensures { IfOk result (λ l. l.star.points ≡ core.now.points) }
{
    let points = core.points();
    if v >= points.len() {
        return Err(Fail::from("no point"));
    }
    let stamp = last_touch(core, v);
    match core.star(v).copy(points) {
        Ok(star) => Ok(Look { star, stamp }),
        Err(_) => Err(Fail::from("no memory")),
    }
}

/// Adds a look.
pub fn put_in(points: &Points, region: &mut Region, look: Look) -> Result<(), Fail>
    requires look { look.star.points ≡ points.now }
    requires points { AreFor points.now region.old }
    ensures { AreFor points.now region.new }
{
    let _count = points.len();
    match region.add(look) {
        Ok(()) => Ok(()),
        Err(_) => Err(Fail::from("no place for a look")),
    }
}

/// The region of looks at these vertices now.
pub fn region_of(points: &Points, core: &Core, looked: &[u32]) -> Result<Region, Fail>
    requires { points.now ≡ core.now.points }
    ensures { IfOk result (AreFor points.now) }
{
    let mut region = Region::make();
    for v in looked {
        let look = look_at(core, *v)?;
        put_in(points, &mut region, look)?;
    }
    Ok(region)
}

/// The same, where its stars agree.
pub fn agreed_region(points: &Points, core: &Core, looked: &[u32]) -> Result<Region, Fail>
    requires { points.now ≡ core.now.points }
    ensures { IfOk result (IsAgreed points.now) }
{
    let region = region_of(points, core, looked)?;
    if !agree(points, &region) {
        return Err(Fail::from("the stars don't agree"));
    }
    Ok(region)
}
