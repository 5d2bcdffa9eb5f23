// Boards of small starts, and plans whose conditions are tested first.
ghost use Rattle.std.specs.Prelude.{◌≡◌, ℕ, ◌<◌, All, IsTrue, IfOk, OnOk, IfSome};
ghost use Rattle.std.specs.List.{AllByRecursion};
ghost use Rattle.journal_defs.specs.declared.edit.Claim.{Claim as ClaimSeen};
ghost use Rattle.seats.specs.Seats.{SeatSeen, ground_of};
ghost use Rattle.board.specs.Answers.{AreWithin};

use arrayvec::ArrayVec;
use board::{Board, LookFault, Pass, Refusal};
use edit::Plan;
use journal_defs::{Claim, Edit};
use mcp_outside::Gate;
use plane::{Pair, Point, Points};
use replay::{Core, MOST_COMMITS};
use std::alloc::Global;
use std::process::Abort;
use std::test::Fail;

pub const SQUARE: [(i64, i64); 4] = [(0, 0), (0, 4), (4, 0), (4, 4)];

pub const GRID: [(i64, i64); 6] = [(0, 0), (10, 0), (20, 0), (0, 10), (10, 10), (20, 10)];

pub fn core_of(rt: &impl Abort, alloc: Global, list: &[(i64, i64)]) -> Result<Core, Fail> {
    let mut points = Vec::new(alloc);
    for (x, y) in list {
        points.push(Point { x: *x, y: *y })?;
    }
    assert!(rt; points.len() < 5001);
    let points = Points::make(points)?;
    let all = triangulate::start(alloc, &points)?;
    match Core::make(points, all) {
        Ok(core) => Ok(core),
        Err(_) => Err(Fail::from("no memory")),
    }
}

pub fn pair(i: u32, j: u32) -> Pair {
    if i != j {
        Pair::of(i, j)
    } else if i == 0 {
        Pair::of(0, 1)
    } else {
        Pair::of(0, i)
    }
}

/// A board for so many callers, with their passes.
pub fn board_of(core: Core, callers: u32, room: u64) -> Result<(Board, Vec<Pass>), Fail>
    ensures passes { IfOk result (λ r. AllByRecursion (λ (p : SeatSeen). p.of ≡ r.0) r.1.items) }
{
    let few = core.journal().len() as u64 <= room && room <= MOST_COMMITS as u64;
    if callers < 1 || callers > 16 || !few {
        return Err(Fail::from("no such board"));
    }
    match Board::make(core, callers, room) {
        Ok(made) => Ok(made),
        Err(_) => Err(Fail::from("no memory")),
    }
}

/// Takes a pass in again.
pub fn put_back(board: &Board, passes: &mut Vec<Pass>, pass: Pass) -> Result<(), Fail>
    requires pass { pass.of ≡ board.now }
    requires of { AllByRecursion (λ (p : SeatSeen). p.of ≡ board.now) passes.old.items }
    ensures of { OnOk result (AllByRecursion (λ (p : SeatSeen). p.of ≡ board.now) passes.new.items) }
{
    let _points = board.points();
    passes.push(pass)?;
    Ok(())
}

/// The last of the passes.
pub fn last_of(board: &Board, passes: &mut Vec<Pass>) -> Result<Pass, Fail>
    requires of { AllByRecursion (λ (p : SeatSeen). p.of ≡ board.now) passes.old.items }
    ensures of { IfOk result (λ p. p.of ≡ board.now) }
    ensures rest { AllByRecursion (λ (p : SeatSeen). p.of ≡ board.now) passes.new.items }
{
    let last = passes.pop();
    let Some(pass) = last else {
        return Err(Fail::from("no pass"));
    };
    Ok(pass)
}

/// What a plan is answered.
#[derive(Clone, Copy, Debug, PartialEq, Eq)]
pub enum Answer {
    Entered(u64),
    Refused(Refusal),
    NoPlan,
}

fn are_within(count: u32, claims: &[Claim]) -> bool
    ensures { IsTrue result → All (λ (c : ClaimSeen). c.vertex < count) claims.now }
{
    for k in 0..claims.len() {
        if claims[k].vertex >= count {
            return false;
        }
    }
    true
}

/// The plan of these edits, with claims on these vertices with these stamps.
pub fn plan_of(board: &Board, edits: &[Edit], claims: &[(u32, u64)]) -> Option<Plan>
    ensures { IfSome result (λ plan. AreWithin (ground_of board.now) plan.claims) }
{
    if edits.len() > 8 || claims.len() > 16 {
        return None;
    }
    let mut list = ArrayVec::<Claim, 16>::new();
    for k in 0..claims.len() {
        let (vertex, stamp) = claims[k];
        list.push(Claim { vertex, stamp });
    }
    let Ok(plan) = Plan::make(edits, list.as_slice()) else {
        return None;
    };
    if !are_within(board.points().len(), plan.claims()) {
        return None;
    }
    Some(plan)
}

/// Hands a plan in.
pub fn hand_in<G: Gate>(
    board: &Board,
    pass: &mut Pass,
    edits: &[Edit],
    claims: &[(u32, u64)],
    gate: &G,
) -> Answer
    requires of { pass.old.of ≡ board.now }
    ensures of { pass.new.of ≡ board.now }
{
    let Some(plan) = plan_of(board, edits, claims) else {
        return Answer::NoPlan;
    };
    match board.commit(pass, plan, gate) {
        Ok(number) => Answer::Entered(number),
        Err((_, refusal)) => Answer::Refused(refusal),
    }
}

/// The stamp of a vertex and how many of its neighbours are kept.
pub fn seen_at(board: &Board, pass: &mut Pass, v: u32) -> Result<(u64, u32), LookFault>
    requires of { pass.old.of ≡ board.now }
    ensures of { pass.new.of ≡ board.now }
{
    if v >= board.points().len() {
        return Err(LookFault::NoMemory);
    }
    let look = board.look(pass, v)?;
    let mut kept = 0u32;
    for k in 0..look.star.degree() {
        if look.star.at(k).1 {
            kept = kept.saturating_add(1);
        }
    }
    Ok((look.stamp, kept))
}
