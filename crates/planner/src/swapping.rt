ghost use Rattle.plan_defs.specs.declared.moves.Move.{Move as TheMove};
ghost use Rattle.plan_defs.specs.Plans.{IsPlanned};
ghost use Rattle.planner.specs.Region.{sights, AreFor, DoAgree, IsAsBefore};

use crate::planning::plan_marks;
use crate::region::Region;
use cost_defs::Costs;
use edit::Plan;
use journal_defs::Edit;
use plane::{Pair, Points};

/// The plan of a keep and then one or two drops, or none where they don't fit the region in their turn, or the keep costs
/// more than the drops.
pub fn plan_swap(
    points: &Points,
    costs: &Costs,
    region: &mut Region,
    keep: Pair,
    first: Pair,
    second: Option<Pair>,
) -> Option<Plan>
    requires points { AreFor points.now region.old }
    requires agree { DoAgree points.now region.old }
    ensures plan { IsPlanned points.now costs.now (sights region.old) (TheMove.Swap keep first second) result }
    ensures before { IsAsBefore points.now region.old region.new }
{
    let _count = region.count();
    let kept = Edit::Keep(keep);
    let dropped = Edit::Drop(first);
    match second {
        Some(e) => plan_marks(points, costs, region, &[kept, dropped, Edit::Drop(e)]),
        None => plan_marks(points, costs, region, &[kept, dropped]),
    }
}
