ghost use Rattle.std.specs.Prelude.{IfOk};
ghost use Rattle.plan_defs.specs.declared.moves.Move.{Move as TheMove};
ghost use Rattle.plan_defs.specs.Plans.{IsAcross, IsPlanned, star_in};
ghost use Rattle.planner.specs.Region.{sights, AreFor, DoAgree, IsAsBefore};
ghost use Rattle.planner.specs.Steps.{AreHeld};

use crate::apexes::across;
use crate::planning::plan_flip_then;
use crate::region::Region;
use cost_defs::Costs;
use edit::Plan;
use journal_defs::Edit;
use mcp_outside::NoMemory;
use plane::{Pair, Points};

/// The plan of a flip to the pair of the apexes, a keep of the new pair and then one or two drops, or none where they don't
/// fit the region in their turn, an apex is lacking, or the keep costs more than the drops. Without memory there is no
/// answer.
pub fn plan_flip_swap(
    points: &Points,
    costs: &Costs,
    region: &mut Region,
    pair: Pair,
    first: Pair,
    second: Option<Pair>,
) -> Result<Option<Plan>, NoMemory>
    requires points { AreFor points.now region.old }
    requires agree { DoAgree points.now region.old }
    ensures plan { IfOk result (IsPlanned points.now costs.now (sights region.old) (TheMove.FlipSwap pair first second)) }
    ensures before { IsAsBefore points.now region.old region.new }
{
    let _count = region.count();
    match across(points, region, pair) {
        Some(to) => plan_to(points, costs, region, pair, to, first, second),
        None => Ok(None),
    }
}

// The plan where the pair of the apexes is known.
fn plan_to(
    points: &Points,
    costs: &Costs,
    region: &mut Region,
    pair: Pair,
    to: Pair,
    first: Pair,
    second: Option<Pair>,
) -> Result<Option<Plan>, NoMemory>
    requires held { AreHeld points.now region.old }
    requires agree { DoAgree points.now region.old }
    requires across { IsAcross points.now (star_in points.now (sights region.old)) pair to }
    ensures plan { IfOk result (IsPlanned points.now costs.now (sights region.old) (TheMove.FlipSwap pair first second)) }
    ensures before { IsAsBefore points.now region.old region.new }
{
    let flip = Edit::Flip { from: pair, to };
    let keep = Edit::Keep(to);
    let drop = Edit::Drop(first);
    match second {
        Some(e) => {
            let edits = [flip, keep, drop, Edit::Drop(e)];
            plan_flip_then(points, costs, region, pair, to, &edits)
        }
        None => plan_flip_then(points, costs, region, pair, to, &[flip, keep, drop]),
    }
}
