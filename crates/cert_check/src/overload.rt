// The first pair with more than is allowed. Loads are added up a strip of pairs at a time, in the order of the pairs, so that
// no table of all pairs is kept.
ghost use Rattle.std.specs.Prelude.{◌≡◌, ◌+◌, ◌<◌, ◌≤◌, length, IfOk};
ghost use Rattle.price_defs.specs.Limits.{AreLight};
ghost use Rattle.price_defs.specs.Rows.{AreRight};
ghost use Rattle.cert_check.specs.Overloads.{AreKept, IsExcess, IsFirstOverFrom, IsFirstOverOf, IsFirstOver};

use crate::clear_tests::ClearTests;
use cost_defs::Costs;
use given_sums::{GivenSums, STRIP};
use mcp_outside::NoMemory;
use plane::{Pair, Points};
use point_rows::Takers;
use price_defs::{MOST_ROWS, RowList};
use std::alloc::Global;

/// A pair with its load.
#[derive(Clone, Copy, Debug, PartialEq, Eq)]
pub struct Loaded {
    pub pair: Pair,
    pub load: i64,
}

// The load of a pair of the strip, where it is clear and has more than is allowed. Whether it is clear is asked last.
fn excess(
    alloc: Global,
    points: &Points,
    costs: &Costs,
    q: u64,
    sums: &GivenSums,
    takers: &Takers,
    clear: &mut ClearTests,
    e: Pair,
) -> Result<Option<i64>, NoMemory>
    requires kept { AreKept points.now sums.now takers.now }
    requires clear { points.now ≡ clear.old }
    requires divisor { q ≤ 1000000 }
    requires from { sums.now.first ≤ e.lo }
    requires within { e.lo < sums.now.first + STRIP }
    requires end { e.hi < length points.now }
    ensures excess { IfOk result (IsExcess points.now costs.now q sums.now.rows e.lo e.hi) }
    ensures points { clear.new ≡ clear.old }
{
    let allowed = q * u64::from(costs.of(e));
    let given = sums.of(e);
    if given <= allowed {
        return Ok(None);
    }
    let taken = takers.of(e);
    if given <= allowed + taken {
        return Ok(None);
    }
    if !clear.has(alloc, points, e)? {
        return Ok(None);
    }
    Ok(Some(given as i64 - taken as i64))
}

// The first pair whose lesser end is i, a point of the strip.
fn first_over_from(
    alloc: Global,
    points: &Points,
    costs: &Costs,
    q: u64,
    sums: &GivenSums,
    takers: &Takers,
    clear: &mut ClearTests,
    i: u32,
) -> Result<Option<Loaded>, NoMemory>
    requires kept { AreKept points.now sums.now takers.now }
    requires clear { points.now ≡ clear.old }
    requires divisor { q ≤ 1000000 }
    requires from { sums.now.first ≤ i }
    requires within { i < sums.now.first + STRIP }
    requires end { i < length points.now }
    ensures first { IfOk result (IsFirstOverFrom points.now costs.now q sums.now.rows i (length points.now)) }
    ensures points { clear.new ≡ clear.old }
{
    let count = points.len();
    for j in i + 1..count {
        let pair = Pair::of(i, j);
        let found = excess(alloc, points, costs, q, sums, takers, clear, pair)?;
        if let Some(load) = found {
            return Ok(Some(Loaded { pair, load }));
        }
    }
    Ok(None)
}

// The first pair of the strip.
fn first_over_of(
    alloc: Global,
    points: &Points,
    costs: &Costs,
    q: u64,
    sums: &GivenSums,
    takers: &Takers,
    clear: &mut ClearTests,
    first: u32,
) -> Result<Option<Loaded>, NoMemory>
    requires kept { AreKept points.now sums.now takers.now }
    requires clear { points.now ≡ clear.old }
    requires divisor { q ≤ 1000000 }
    requires first { sums.now.first ≡ first }
    requires within { first ≤ length points.now }
    ensures first { IfOk result (IsFirstOverOf points.now costs.now q sums.now.rows first (first + STRIP) (length points.now)) }
    ensures points { clear.new ≡ clear.old }
{
    let end = points.len().min(first + STRIP);
    for i in first..end {
        let found = first_over_from(alloc, points, costs, q, sums, takers, clear, i)?;
        if let Some(over) = found {
            return Ok(Some(over));
        }
    }
    Ok(None)
}

/// The least clear pair that has more than is allowed, with its load, or none.
pub fn first_over(
    alloc: Global,
    points: &Points,
    costs: &Costs,
    q: u64,
    rows: &RowList,
) -> Result<Option<Loaded>, NoMemory>
    requires right { AreRight points.now rows.now }
    requires few { length rows.now ≤ MOST_ROWS }
    requires light { AreLight rows.now }
    requires divisor { q ≤ 1000000 }
    ensures { IfOk result (IsFirstOver points.now costs.now q rows.now (length points.now)) }
{
    let _listed = costs.list();
    let takers = Takers::make(alloc, rows.as_slice())?;
    let mut clear = ClearTests::make(points);
    for k in 0..points.len() / STRIP + 1 {
        let first = k * STRIP;
        let sums = GivenSums::make(alloc, points, rows, first)?;
        let found = first_over_of(alloc, points, costs, q, &sums, &takers, &mut clear, first)?;
        if let Some(over) = found {
            return Ok(Some(over));
        }
    }
    Ok(None)
}
