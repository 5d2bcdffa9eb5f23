ghost use Rattle.std.specs.Prelude.{List};
ghost use Rattle.cost_defs.specs.Costs.{Costed};
ghost use Rattle.plan_defs.specs.declared.moves.Move.{Move as TheMove};
ghost use Rattle.plan_defs.specs.Plans.{IsPlanned};
ghost use Rattle.planner.specs.Region.{sights, AreFor, DoAgree};

use crate::planning::plan_one;
use crate::region::Region;
use edit::Plan;
use journal_defs::Edit;
use plane::{Pair, Points};

/// The plan of a drop, or none where it doesn't fit the region. It holds whatever the costs.
pub fn plan_drop(points: &Points, region: &Region, pair: Pair) -> Option<Plan>
    requires points { AreFor points.now region.now }
    requires agree { DoAgree points.now region.now }
    ensures { (D : List Costed) → IsPlanned points.now D (sights region.now) (TheMove.DropOne pair) result }
{
    let _count = region.count();
    plan_one(points, region, Edit::Drop(pair))
}
