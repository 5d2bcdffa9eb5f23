// One round.
ghost use Rattle.std.specs.Prelude.{◌≡◌, ◌+◌, ◌<◌, ◌≤◌, length, IfOk, OnOk};
ghost use Rattle.planner.specs.Region.{AreFor};
ghost use Rattle.seats.specs.Seats.{ground_of};
ghost use Rattle.board.specs.Passes.{IsPass};
ghost use Rattle.search_worker.specs.Working.{tries, IsFurther};
ghost use Rattle.search_worker.specs.Looking.{ShowsNow};
ghost use Rattle.search_worker.specs.Turning.{HasTurned, HasTurnedAt};

use crate::handing::hand_all;
use crate::log::WorkLog;
use crate::looking::{gather, look_once};
use board::{Board, Pass};
use cost_defs::Costs;
use edit::Look;
use mcp_outside::{Gate, NoMemory};
use planner::agree;
use rand_core::utils::NextWord;
use rand_pcg::Pcg32;
use round_plans::Scratch;

// The rest of a round, after the look at its vertex.
fn round_at<G: Gate>(
    board: &Board,
    costs: &Costs,
    pass: &mut Pass,
    look: Look,
    words: &mut Pcg32,
    scratch: &mut Scratch,
    gate: &G,
) -> Result<WorkLog, NoMemory>
    requires of { pass.old.of ≡ board.now }
    requires vertex { look.star.centre < length board.now.root.points }
    requires shown { ShowsNow (ground_of board.now) pass.old.seen look.star.centre look }
    ensures turned { IfOk result
        (HasTurnedAt (ground_of board.now) costs.now look.star.centre pass.old pass.new words.old words.new) }
    ensures further { IsFurther pass.old pass.new }
    ensures valid { IsPass pass.new }
{
    let _caller = pass.caller();
    let points = board.points();
    let v = look.star.centre();
    let degree = look.star.degree();
    let mut region = gather(board, pass, look)?;
    if !agree(points, &region) {
        return Ok(WorkLog::empty());
    }
    let from = words.next_word() % degree;
    let plans = scratch.plans(points, costs, &mut region, v, from)?;
    hand_all(board, pass, plans, gate)
}

/// A round: a word picks a vertex, which is looked at with its neighbours; another picks the neighbour with which the walk
/// through the candidates begins; the first plan of each kind is made, and of these at most four are handed in. Where
/// another caller has the vertex, or the looks don't agree, it ends before.
pub fn round<G: Gate>(
    board: &Board,
    costs: &Costs,
    pass: &mut Pass,
    words: &mut Pcg32,
    scratch: &mut Scratch,
    gate: &G,
) -> Result<WorkLog, NoMemory>
    requires of { pass.old.of ≡ board.now }
    ensures turned { IfOk result (HasTurned (ground_of board.now) costs.now pass.old pass.new words.old words.new) }
    ensures tries { OnOk result (tries pass.old + 1 ≤ tries pass.new) }
    ensures further { IsFurther pass.old pass.new }
    ensures valid { IsPass pass.new }
{
    let points = board.points();
    let count = points.len();
    let v = words.next_word() % count;
    match look_once(board, pass, v)? {
        Some(look) => round_at(board, costs, pass, look, words, scratch, gate),
        None => Ok(WorkLog::empty()),
    }
}
