// The walk through the trades at a vertex.
ghost use Rattle.std.specs.Prelude.{◌≡◌, ◌≤◌, drop, length, IfOk};
ghost use Rattle.planner.specs.Region.{sights};
ghost use Rattle.round_plans.specs.Choices.{trades_with, trades_of, IsReady};
ghost use Rattle.round_plans.specs.Found.{IsFirstPlan};

use crate::choosing::{Head, first_twos};
use cost_defs::Costs;
use edit::Plan;
use mcp_outside::NoMemory;
use plane::{Pair, Points};
use planner::Region;

// The first trade that keeps this pair and one of the list from a position on.
fn first_with(
    points: &Points,
    costs: &Costs,
    region: &mut Region,
    keep: Pair,
    spare: &[Pair],
    from: usize,
    kept: &[Pair],
) -> Result<Option<Plan>, NoMemory>
    requires ready { IsReady points.now region.old }
    requires within { from ≤ length spare.now }
    ensures first { IfOk result (IsFirstPlan points.now costs.now (sights region.old) (trades_with keep kept.now (drop from spare.now))) }
    ensures ready { IsReady points.now region.new }
    ensures before { sights region.new ≡ sights region.old }
{
    for b in from..spare.len() {
        let head = Head::KeepTwo(keep, spare[b]);
        let found = first_twos(points, costs, region, head, kept)?;
        if found.is_some() {
            return Ok(found);
        }
    }
    Ok(None)
}

/// The first trade of two spare pairs for two kept ones.
pub fn first_trade(
    points: &Points,
    costs: &Costs,
    region: &mut Region,
    spare: &[Pair],
    kept: &[Pair],
) -> Result<Option<Plan>, NoMemory>
    requires { IsReady points.now region.old }
    ensures first { IfOk result (IsFirstPlan points.now costs.now (sights region.old) (trades_of kept.now spare.now)) }
    ensures ready { IsReady points.now region.new }
    ensures before { sights region.new ≡ sights region.old }
{
    for a in 0..spare.len() {
        let found = first_with(points, costs, region, spare[a], spare, a + 1, kept)?;
        if found.is_some() {
            return Ok(found);
        }
    }
    Ok(None)
}
