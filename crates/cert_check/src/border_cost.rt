// What the border pairs cost.
ghost use Rattle.std.specs.Prelude.{◌≤◌};
ghost use Rattle.cert_check.specs.Answers.{HasBorderCost};

use cost_defs::Costs;
use plane::{Pair, Points};

/// The sum of the costs of the border pairs: each is the step from one point to the next on the border.
pub fn border_cost(points: &Points, costs: &Costs) -> u64
    ensures cost { HasBorderCost points.now costs.now result }
    ensures small { result ≤ 5000000 }
{
    let count = points.len();
    let mut sum = 0;
    for v in 0..count {
        if let Some(w) = points.border_after(v) {
            let e = Pair::of(v, w);
            sum += u64::from(costs.of(e));
        }
    }
    sum
}
