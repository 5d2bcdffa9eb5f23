// Plans handed in.
ghost use Rattle.std.specs.Prelude.{◌≡◌, ◌+◌, IfOk};
ghost use Rattle.round_defs.specs.Handed.{refreshed, IsTried, IsTriedTwice};
ghost use Rattle.seats.specs.Seats.{ground_of};
ghost use Rattle.board.specs.Answers.{AreWithin};
ghost use Rattle.board.specs.Passes.{IsPass};
ghost use Rattle.search_worker.specs.Working.{IsFurther};
ghost use Rattle.search_worker.specs.Handing.{is_made as made_spec, IsOutcome, IsTriedOnce, IsAlone, HasMade};
ghost use Rattle.search_worker.specs.Handing.{made_count, IsSafe, IsFew, HasHanded, AreSafe, HaveHanded};

use crate::log::WorkLog;
use board::{Board, Pass, Refusal};
use edit::Plan;
use mcp_outside::{Gate, NoMemory};
use round_plans::RoundPlans;

// At most so many plans are handed in in a round.
const MOST_PLANS: u32 = 4;

/// What handing a plan in once has brought.
#[derive(Drop)]
pub enum Tried {
    /// It became a commit.
    Made,
    /// It was stale.
    Old(Plan),
    /// It was refused otherwise.
    GivenUp,
}

fn outcome(plan: Plan, why: Refusal) -> Result<Tried, NoMemory>
    ensures { IfOk result (IsOutcome plan why) }
{
    match why {
        Refusal::Stale { .. } => Ok(Tried::Old(plan)),
        Refusal::NoMemory => Err(NoMemory),
        Refusal::Busy { .. } => Ok(Tried::GivenUp),
        Refusal::Ahead { .. } => Ok(Tried::GivenUp),
        Refusal::Illegal { .. } => Ok(Tried::GivenUp),
        Refusal::Full => Ok(Tried::GivenUp),
    }
}

fn is_made(tried: &Tried) -> bool
    ensures { result ≡ made_spec tried.now }
{
    match tried {
        Tried::Made => true,
        Tried::Old(_) => false,
        Tried::GivenUp => false,
    }
}

fn hand_once<G: Gate>(
    board: &Board,
    pass: &mut Pass,
    plan: Plan,
    gate: &G,
) -> Result<Tried, NoMemory>
    requires of { pass.old.of ≡ board.now }
    requires within { AreWithin (ground_of board.now) plan.claims }
    ensures tried { IfOk result (IsTriedOnce (ground_of board.now) plan pass.old pass.new) }
    ensures further { IsFurther pass.old pass.new }
    ensures valid { IsPass pass.new }
{
    let _caller = pass.caller();
    match board.commit(pass, plan, gate) {
        Ok(_) => Ok(Tried::Made),
        Err((back, why)) => outcome(back, why),
    }
}

// Hands a plan in for the last time, and tells whether it became a commit.
fn hand_last<G: Gate>(
    board: &Board,
    pass: &mut Pass,
    plan: Plan,
    gate: &G,
) -> Result<bool, NoMemory>
    requires of { pass.old.of ≡ board.now }
    requires within { AreWithin (ground_of board.now) plan.claims }
    ensures made { IfOk result (HasMade plan.edits pass.old pass.new) }
    ensures alone { IfOk result (λ b. IsAlone (ground_of board.now) pass.old
        → IsTried board.now.root.points board.now.root.start.items pass.old.seen plan pass.new.seen) }
    ensures further { IsFurther pass.old pass.new }
    ensures valid { IsPass pass.new }
{
    let tried = hand_once(board, pass, plan, gate)?;
    Ok(is_made(&tried))
}

// Refreshes a plan, and hands it in for the last time.
fn hand_again<G: Gate>(
    board: &Board,
    pass: &mut Pass,
    plan: Plan,
    gate: &G,
) -> Result<bool, NoMemory>
    requires of { pass.old.of ≡ board.now }
    requires within { AreWithin (ground_of board.now) plan.claims }
    ensures made { IfOk result (HasMade plan.edits pass.old pass.new) }
    ensures alone { IfOk result (λ b. IsAlone (ground_of board.now) pass.old
        → IsTried board.now.root.points board.now.root.start.items pass.old.seen (refreshed pass.old.seen plan) pass.new.seen) }
    ensures further { IsFurther pass.old pass.new }
    ensures valid { IsPass pass.new }
{
    match board.refresh(pass, plan) {
        Ok(fresh) => hand_last(board, pass, fresh, gate),
        Err(_) => Ok(false),
    }
}

// Hands a plan in; where it is stale it is refreshed and handed in once more.
fn hand_in<G: Gate>(board: &Board, pass: &mut Pass, plan: Plan, gate: &G) -> Result<bool, NoMemory>
    requires of { pass.old.of ≡ board.now }
    requires within { AreWithin (ground_of board.now) plan.claims }
    ensures made { IfOk result (HasMade plan.edits pass.old pass.new) }
    ensures alone { IfOk result (λ b. IsAlone (ground_of board.now) pass.old
        → IsTriedTwice board.now.root.points board.now.root.start.items pass.old.seen plan pass.new.seen) }
    ensures further { IsFurther pass.old pass.new }
    ensures valid { IsPass pass.new }
{
    match hand_once(board, pass, plan, gate)? {
        Tried::Made => Ok(true),
        Tried::Old(back) => hand_again(board, pass, back, gate),
        Tried::GivenUp => Ok(false),
    }
}

fn counted(log: WorkLog, made: bool) -> WorkLog
    requires { IsFew log }
    ensures tried { result.tried ≡ log.tried + 1 }
    ensures committed { result.committed ≡ log.committed + made_count made }
{
    let more = if made { 1 } else { 0 };
    WorkLog {
        tried: log.tried + 1,
        committed: log.committed + more,
    }
}

// Hands a plan in, if there is one and fewer than four were handed in before it.
fn hand_some<G: Gate>(
    board: &Board,
    pass: &mut Pass,
    plan: Option<Plan>,
    log: WorkLog,
    gate: &G,
) -> Result<WorkLog, NoMemory>
    requires of { pass.old.of ≡ board.now }
    requires safe { IsSafe (ground_of board.now) plan }
    requires few { IsFew log }
    ensures handed { IfOk result (λ next. HasHanded (ground_of board.now) plan log next pass.old pass.new) }
    ensures further { IsFurther pass.old pass.new }
    ensures valid { IsPass pass.new }
{
    let _caller = pass.caller();
    let Some(plan) = plan else {
        return Ok(log);
    };
    if log.tried == MOST_PLANS {
        return Ok(log);
    }
    let made = hand_in(board, pass, plan, gate)?;
    Ok(counted(log, made))
}

/// Hands in the plans of a round, in their order, and at most four of them.
pub fn hand_all<G: Gate>(
    board: &Board,
    pass: &mut Pass,
    plans: RoundPlans,
    gate: &G,
) -> Result<WorkLog, NoMemory>
    requires of { pass.old.of ≡ board.now }
    requires safe { AreSafe (ground_of board.now) plans }
    ensures handed { IfOk result (λ log. HaveHanded (ground_of board.now) plans log pass.old pass.new) }
    ensures further { IsFurther pass.old pass.new }
    ensures valid { IsPass pass.new }
{
    let none = WorkLog::empty();
    let first = hand_some(board, pass, plans.drop, none, gate)?;
    let second = hand_some(board, pass, plans.swap, first, gate)?;
    let third = hand_some(board, pass, plans.trade, second, gate)?;
    let fourth = hand_some(board, pass, plans.flip_swap, third, gate)?;
    hand_some(board, pass, plans.flip, fourth, gate)
}
