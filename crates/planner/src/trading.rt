ghost use Rattle.std.specs.Prelude.{◌≡◌, ◌∷◌, []};
ghost use Rattle.plane.specs.declared.segment.Pair.{Pair as ThePair};
ghost use Rattle.plan_defs.specs.declared.moves.Move.{Move as TheMove};
ghost use Rattle.plan_defs.specs.Plans.{IsPlanned};
ghost use Rattle.planner.specs.Region.{sights, AreFor, DoAgree, IsAsBefore};

use crate::planning::plan_marks;
use crate::region::Region;
use cost_defs::Costs;
use edit::Plan;
use journal_defs::Edit;
use plane::{Pair, Points};

/// The plan of two keeps and then two drops, in the given order, or none where they don't fit the region in their turn, or
/// the keeps cost more than the drops.
pub fn plan_trade(
    points: &Points,
    costs: &Costs,
    region: &mut Region,
    keep: [Pair; 2],
    dropped: [Pair; 2],
) -> Option<Plan>
    requires points { AreFor points.now region.old }
    requires agree { DoAgree points.now region.old }
    ensures plan { (k o f s : ThePair) → keep ≡ k ∷ o ∷ [] → dropped ≡ f ∷ s ∷ []
        → IsPlanned points.now costs.now (sights region.old) (TheMove.Trade k o f s) result }
    ensures before { IsAsBefore points.now region.old region.new }
{
    let [keep, other] = keep;
    let [first, second] = dropped;
    trade(points, costs, region, keep, other, first, second)
}

fn trade(
    points: &Points,
    costs: &Costs,
    region: &mut Region,
    keep: Pair,
    other: Pair,
    first: Pair,
    second: Pair,
) -> Option<Plan>
    requires points { AreFor points.now region.old }
    requires agree { DoAgree points.now region.old }
    ensures plan { IsPlanned points.now costs.now (sights region.old) (TheMove.Trade keep other first second) result }
    ensures before { IsAsBefore points.now region.old region.new }
{
    let _count = region.count();
    let edits = [
        Edit::Keep(keep),
        Edit::Keep(other),
        Edit::Drop(first),
        Edit::Drop(second),
    ];
    plan_marks(points, costs, region, &edits)
}
