// The lower bound that the raised floor certificate shows.
ghost use Rattle.std.specs.Prelude.{◌*◌, ◌≤◌, IfOk};
ghost use Rattle.partition_defs.specs.Ascending.{IsAscending};
ghost use Rattle.partition_defs.specs.Triangulation.{IsTriangulation};
ghost use Rattle.edit_session.specs.Bounds.{IsRaisedValue, IsBorderCost};
ghost use Rattle.edit_session.specs.Desks.{most_pairs};

use dual_prices::{Costs, floor_certificate, raise_all, value};
use mcp_outside::NoMemory;
use plane::{Pair, Points};
use std::alloc::Global;

// What the border pairs among the segments of a triangulation cost: these are all border pairs.
fn border_cost(points: &Points, costs: &Costs, pairs: &[Pair]) -> u64
    requires triangulation { IsTriangulation points.now pairs.now }
    requires ascending { IsAscending pairs.now }
    ensures cost { IsBorderCost points.now costs.now result }
    ensures small { result ≤ 1000 * most_pairs }
{
    let _count = points.len();
    let mut sum = 0;
    for e in pairs {
        if points.is_border(*e) {
            sum += u64::from(costs.of(*e));
        }
    }
    sum
}

/// The value of the raised floor certificate, which no convex partition undercuts.
pub fn raised_value(
    alloc: Global,
    points: &Points,
    costs: &Costs,
    pairs: &[Pair],
) -> Result<u64, NoMemory>
    requires triangulation { IsTriangulation points.now pairs.now }
    requires ascending { IsAscending pairs.now }
    ensures { IfOk result (IsRaisedValue points.now costs.now) }
{
    let floor = floor_certificate(alloc, points, costs)?;
    let raised = raise_all(alloc, points, costs, floor)?;
    Ok(value(&raised, border_cost(points, costs, pairs)))
}
