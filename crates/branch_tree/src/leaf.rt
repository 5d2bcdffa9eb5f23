// The value of a leaf with prices.
ghost use Rattle.std.specs.Prelude.{◌≡◌, ◌≢◌, ◌+◌, ◌*◌, ◌<◌, ◌≤◌, length, IfOk, IsTrue, pos, neg_ℤ, ◌≤ℤ◌};
ghost use Rattle.std.specs.List.{All, Contains, sum_by};
ghost use Rattle.plane.specs.declared.segment.Pair.{Pair};
ghost use Rattle.partition_defs.specs.Partition.{AreWithin};
ghost use Rattle.partition_defs.specs.Triangulation.{AreDistinct};
ghost use Rattle.cost_defs.specs.Costs.{total};
ghost use Rattle.price_defs.specs.Loads.{added, lost};
ghost use Rattle.price_defs.specs.Rows.{AreRight, weight};
ghost use Rattle.tree_defs.specs.Leaves.{IsFreePart};
ghost use Rattle.branch_tree.specs.Values.{AreLightRows, IsLoadSum, IsValueThere};

use cost_defs::Costs;
use mcp_outside::NoMemory;
use plane::{Pair, Points};
use price_defs::{Certificate, Row, added_of, load_of, lost_of};
use std::alloc::Global;
use tree_defs::MOST_NODES;

// The taken pairs that aren't border pairs.
fn free_part(alloc: Global, points: &Points, taken: &[Pair]) -> Result<Vec<Pair>, NoMemory>
    requires within { AreWithin points.now taken.now }
    requires distinct { AreDistinct taken.now }
    ensures part { IfOk result (λ v. IsFreePart points.now taken.now v.items) }
    ensures few { IfOk result (λ v. length v.items ≤ length taken.now) }
{
    let mut free = Vec::new(alloc);
    for e in taken {
        if !points.is_border(*e) {
            free.push(*e)?;
        }
    }
    Ok(free)
}

// The loads of the listed pairs together.
fn loads_of(points: &Points, rows: &[Row], list: &[Pair]) -> i64
    requires within { AreWithin points.now list.now }
    requires right { AreRight points.now rows.now }
    requires light { AreLightRows rows.now }
    requires few { length list.now ≤ MOST_NODES }
    ensures sum { IsLoadSum points.now rows.now list.now result }
    ensures low { neg_ℤ (pos 2000000000000000) ≤ℤ result }
    ensures high { result ≤ℤ pos 2000000000000000 }
{
    let mut sum = 0;
    for e in list {
        sum += load_of(points, rows, e.lo(), e.hi());
    }
    sum
}

// What the listed pairs cost together.
fn cost_of(costs: &Costs, list: &[Pair]) -> u64
    requires { length list.now ≤ MOST_NODES }
    ensures cost { result ≡ total costs.now list.now }
    ensures small { result ≤ 20000000 }
{
    let mut sum = 0;
    for e in list {
        sum += u64::from(costs.of(*e));
    }
    sum
}

// What the rows add to the sum under the value.
fn added_by(rows: &[Row]) -> u64
    requires light { AreLightRows rows.now }
    ensures sum { result ≡ sum_by added rows.now }
    ensures small { result ≤ 600000000000000000 }
{
    let mut sum = 0;
    for row in rows {
        sum += added_of(*row);
    }
    sum
}

// What the rows take off it.
fn lost_by(rows: &[Row]) -> u64
    requires light { AreLightRows rows.now }
    ensures sum { result ≡ sum_by lost rows.now }
    ensures small { result ≤ 600000000000000000 }
{
    let mut sum = 0;
    for row in rows {
        sum += lost_of(*row);
    }
    sum
}

/// The value of a leaf with prices, where the border pairs cost `base`: their cost, that of the taken pairs, and what the
/// rows show of the others.
pub fn leaf_value_of(
    alloc: Global,
    points: &Points,
    costs: &Costs,
    base: u64,
    taken: &[Pair],
    certificate: &Certificate,
) -> Result<u64, NoMemory>
    requires within { AreWithin points.now taken.now }
    requires distinct { AreDistinct taken.now }
    requires few { length taken.now ≤ MOST_NODES }
    requires base { base ≤ 5000000 }
    requires divisor { 0 < certificate.now.q }
    requires right { AreRight points.now certificate.now.rows }
    requires light { AreLightRows certificate.now.rows }
    ensures { IfOk result (IsValueThere points.now costs.now base taken.now certificate.now) }
{
    let rows = certificate.rows.as_slice();
    let free = free_part(alloc, points, taken)?;
    let list = free.as_slice();
    let rest = added_by(rows) as i64 - lost_by(rows) as i64 - loads_of(points, rows, list);
    let shown = (rest.max(0) as u64).div_ceil(certificate.q);
    Ok(base + cost_of(costs, list) + shown)
}
