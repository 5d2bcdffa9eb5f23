// The floor certificate: at each inner point, one or two rows of the least cost of a clear pair there.
ghost use Rattle.std.specs.Prelude.{◌≡◌, ◌<◌, ◌≤◌, ◌+◌, ℕ, length, IfOk, OnOk};
ghost use Rattle.price_defs.specs.Floor.{IsLeastCost, IsFloor, IsFloorCertificate};
ghost use Rattle.price_defs.specs.Limits.{AreLight};
ghost use Rattle.std.specs.List.{sum_by};
ghost use Rattle.price_defs.specs.Loads.{IsValid, lost, value};
ghost use Rattle.price_defs.specs.Tight.{AreCovered};
ghost use Rattle.dual_prices.specs.Floors.{IsLeastCostBelow, AreFloorRowsBelow, HasFloorRowsAt};

use crate::least::is_below;
use border::inner_marks;
use cost_defs::Costs;
use directions::Opposites;
use mcp_outside::NoMemory;
use plane::{Pair, Points};
use price_defs::{Certificate, Row, RowList};
use std::alloc::Global;

// The least cost with the points up to r, from that with the points before it. Whether a pair is clear is asked only
// where it costs less than the least so far.
fn lesser_cost(points: &Points, costs: &Costs, p: u32, r: u32, least: Option<u64>) -> Option<u64>
    requires p_in { p < length points.now }
    requires r_in { r < length points.now }
    requires least { IsLeastCostBelow points.now costs.now p r least }
    ensures { IsLeastCostBelow points.now costs.now p (r + 1) result }
{
    if r == p {
        return least;
    }
    let e = Pair::of(p, r);
    let cost = u64::from(costs.of(e));
    if !is_below(cost, least) {
        return least;
    }
    if points.is_clear(e) {
        Some(cost)
    } else {
        least
    }
}

// The least cost of a clear pair at a point.
fn least_cost(points: &Points, costs: &Costs, p: u32) -> u64
    requires p_in { p < length points.now }
    ensures least { IsLeastCost points.now costs.now p result }
    ensures small { result ≤ 1000 }
{
    let _listed = costs.list();
    let count = points.len();
    let mut least = None;
    for r in 0..count {
        least = lesser_cost(points, costs, p, r, least);
    }
    match least {
        Some(m) => m,
        None => unreachable!(),
    }
}

// The least cost at a point where no costs are listed: some pair there is clear, and each pair costs 1.
fn unit_cost(points: &Points, costs: &Costs, p: u32) -> u64
    requires p_in { p < length points.now }
    requires none { length costs.now ≡ 0 }
    ensures least { IsLeastCost points.now costs.now p result }
    ensures small { result ≤ 1000 }
{
    let _count = points.len();
    1
}

// The least cost of a clear pair at a point. No pair is tried where each costs 1.
fn least_at(points: &Points, costs: &Costs, p: u32) -> u64
    requires p_in { p < length points.now }
    ensures least { IsLeastCost points.now costs.now p result }
    ensures small { result ≤ 1000 }
{
    if costs.list().len() == 0 {
        unit_cost(points, costs, p)
    } else {
        least_cost(points, costs, p)
    }
}

// The rows of an inner point.
fn push_rows(
    points: &Points,
    costs: &Costs,
    opposites: &mut Opposites,
    p: u32,
    rows: &mut Vec<Row>,
) -> Result<(), NoMemory>
    requires points { points.now ≡ opposites.old }
    requires p_in { p < length points.now }
    ensures rows { OnOk result (HasFloorRowsAt points.now costs.now p rows.old.items rows.new.items) }
    ensures points { opposites.new ≡ opposites.old }
{
    let w = least_at(points, costs, p);
    match opposites.first(points, p)? {
        Some((q, r)) => {
            rows.push(Row::Half { p, q, w })?;
            rows.push(Row::Half { p, q: r, w })?;
        }
        None => rows.push(Row::Three { p, w })?,
    }
    Ok(())
}

// The rows of all inner points, ascending.
fn floor_rows(alloc: Global, points: &Points, costs: &Costs) -> Result<Vec<Row>, NoMemory>
    ensures { IfOk result (λ v. AreFloorRowsBelow points.now costs.now (length points.now) v.items) }
{
    let marks = inner_marks(alloc, points)?;
    let mut opposites = Opposites::make(alloc, points)?;
    let mut rows = Vec::new(alloc);
    for p in 0..points.len() {
        let inner = marks[p as usize];
        if inner {
            push_rows(points, costs, &mut opposites, p, &mut rows)?;
        }
    }
    Ok(rows)
}

/// The floor certificate: `q` is 2, and each inner point has, ascending, a Three row where it is strictly between no two
/// points, else Half rows for the first two points that it is strictly between; their weight is the least cost of a
/// clear pair at it. (This project's own.)
pub fn floor_certificate(
    alloc: Global,
    points: &Points,
    costs: &Costs,
) -> Result<Certificate, NoMemory>
    ensures floor { IfOk result (λ c. IsFloorCertificate points.now costs.now c.q c.rows) }
    ensures valid { IfOk result (λ c. IsValid points.now costs.now c.q c.rows) }
    ensures covered { IfOk result (λ c. AreCovered points.now c.rows) }
    ensures light { IfOk result (λ c. AreLight c.rows) }
    ensures divisor { IfOk result (λ c. c.q ≡ 2) }
    ensures takers { IfOk result (λ c. sum_by lost c.rows ≡ 0) }
    ensures value { IfOk result (λ c. (h : ℕ) → IsFloor points.now costs.now h (value h c.q c.rows)) }
{
    let _count = points.len();
    let rows = floor_rows(alloc, points, costs)?;
    Ok(Certificate {
        q: 2,
        rows: RowList::make(rows),
    })
}
