// Raising rows, one or all, of rows that are kept by the points at which they stand.
ghost use Rattle.std.specs.Prelude.{◌≡◌, ◌<◌, ◌≤◌, ◌+◌, length, IsTrue, IfOk};
ghost use Rattle.std.specs.List.{sum_by};
ghost use Rattle.price_defs.specs.Limits.{AreLight};
ghost use Rattle.price_defs.specs.Loads.{IsValid, lost};
ghost use Rattle.price_defs.specs.Raising.{AreRaised};
ghost use Rattle.price_defs.specs.Tight.{IsTight};
ghost use Rattle.dual_prices.specs.Raised.{IsRaisedAt};
ghost use Rattle.bound_worker.specs.Ends.{IsNoted, AreSettled, AreEnds};
ghost use Rattle.bound_worker.specs.Places.{IsElsewhere};

use directions::ClearPairs;
use dual_prices::{Costs, full_end, raise_row};
use mcp_outside::NoMemory;
use plane::Points;
use point_rows::PointRows;
use price_defs::{MOST_DIVISOR, Row, stand_of};
use std::alloc::Global;

// Raises the row at k, where it is a Half or Three row, and notes the end with which it is full.
pub fn fill_row(
    points: &Points,
    costs: &Costs,
    q: u64,
    clear: &ClearPairs,
    kept: &mut PointRows,
    ends: &mut Vec<u32>,
    k: u32,
)
    requires points { points.now ≡ kept.old.points }
    requires valid { IsValid points.now costs.now q kept.old.rows }
    requires small { q ≤ MOST_DIVISOR }
    requires clear { clear.now ≡ points.now }
    requires takers { sum_by lost kept.old.rows ≤ 100000000000 }
    requires place { k < length kept.old.rows }
    requires count { length ends.old.items ≡ length kept.old.rows }
    ensures rows { IsRaisedAt points.now costs.now q kept.old.rows k kept.new.rows }
    ensures ends { IsNoted points.now costs.now q kept.new.rows k ends.old.items ends.new.items }
    ensures points { kept.new.points ≡ kept.old.points }
{
    let first = [ends[k as usize]];
    if let Some(end) = raise_row(points, costs, q, Some(clear), kept, k, &first) {
        ends[k as usize] = end;
    }
}

// Whether the row at k and the end that is noted for it are elsewhere than at p.
fn is_elsewhere(row: Row, ends: &[u32], p: u32, k: u32) -> bool
    requires { k < length ends.now }
    ensures { IsTrue result → IsElsewhere p k row ends.now }
{
    match stand_of(row) {
        Some(u) => u != p && ends[k as usize] != p,
        None => false,
    }
}

// Raises the row at k in a trial at p. A full pair that doesn't end at p is full yet, so that its row has no room.
fn settle_row(
    points: &Points,
    costs: &Costs,
    q: u64,
    clear: &ClearPairs,
    kept: &mut PointRows,
    ends: &mut Vec<u32>,
    p: u32,
    k: u32,
)
    requires points { points.now ≡ kept.old.points }
    requires valid { IsValid points.now costs.now q kept.old.rows }
    requires small { q ≤ MOST_DIVISOR }
    requires clear { clear.now ≡ points.now }
    requires takers { sum_by lost kept.old.rows ≤ 100000000000 }
    requires place { k < length kept.old.rows }
    requires settled { AreSettled points.now costs.now q p k kept.old.rows ends.old.items }
    ensures rows { IsRaisedAt points.now costs.now q kept.old.rows k kept.new.rows }
    ensures settled { AreSettled points.now costs.now q p (k + 1) kept.new.rows ends.new.items }
    ensures points { kept.new.points ≡ kept.old.points }
{
    let row = kept.rows()[k as usize];
    if is_elsewhere(row, ends.as_slice(), p, k) {
        return;
    }
    fill_row(points, costs, q, clear, kept, ends, k);
}

// Raises all rows, once and in their order, in a trial at p.
pub fn raise_rows(
    points: &Points,
    costs: &Costs,
    q: u64,
    clear: &ClearPairs,
    kept: &mut PointRows,
    ends: &mut Vec<u32>,
    p: u32,
)
    requires points { points.now ≡ kept.old.points }
    requires valid { IsValid points.now costs.now q kept.old.rows }
    requires small { q ≤ MOST_DIVISOR }
    requires clear { clear.now ≡ points.now }
    requires takers { sum_by lost kept.old.rows ≤ 100000000000 }
    requires settled { AreSettled points.now costs.now q p 0 kept.old.rows ends.old.items }
    ensures raised { AreRaised points.now costs.now q kept.old.rows kept.new.rows }
    ensures ends { AreEnds points.now costs.now q kept.new.rows ends.new.items }
    ensures light { AreLight kept.new.rows }
    ensures points { kept.new.points ≡ kept.old.points }
{
    let _listed = costs.list();
    let count = kept.rows().len() as u32;
    for k in 0..count {
        settle_row(points, costs, q, clear, kept, ends, p, k);
    }
}

// The ends with which the rows of a tight certificate are full.
pub fn full_ends(
    alloc: Global,
    points: &Points,
    costs: &Costs,
    q: u64,
    clear: &ClearPairs,
    kept: &PointRows,
) -> Result<Vec<u32>, NoMemory>
    requires points { points.now ≡ kept.now.points }
    requires valid { IsValid points.now costs.now q kept.now.rows }
    requires tight { IsTight points.now costs.now q kept.now.rows }
    requires small { q ≤ MOST_DIVISOR }
    requires clear { clear.now ≡ points.now }
    ensures { IfOk result (λ v. AreEnds points.now costs.now q kept.now.rows v.items) }
{
    let count = kept.rows().len() as u32;
    let mut ends = Vec::with_capacity(alloc, count as usize)?;
    for k in 0..count {
        ends.push(full_end(points, costs, q, Some(clear), kept, k))?;
    }
    Ok(ends)
}
