// A round: a trial from the present rows, which is taken or not.
ghost use Rattle.std.specs.Prelude.{◌≡◌, ◌<◌, ◌≤◌, length, IfOk, IfSome};
ghost use Rattle.std.specs.List.{sum_by, position};
ghost use Rattle.price_defs.specs.declared.row.Row.TheVariants.{Half};
ghost use Rattle.price_defs.specs.Floor.{IsInnerList};
ghost use Rattle.price_defs.specs.Limits.{AreLight};
ghost use Rattle.price_defs.specs.Loads.{IsValid, lost};
ghost use Rattle.price_defs.specs.Rows.{IsRight};
ghost use Rattle.price_defs.specs.Tight.{IsTight};
ghost use Rattle.bound_worker.specs.Ends.{AreSettled, AreEnds};
ghost use Rattle.search_defs.specs.Priced.{is_half, IsLifted, IsTrial, IsRound};

use crate::drawing::{inner_of, other_of};
use crate::raising::{fill_row, full_ends, raise_rows};
use crate::rows::{lowered_rows, open_row, place_of};
use directions::ClearPairs;
use dual_prices::Costs;
use mcp_outside::NoMemory;
use plane::Points;
use point_rows::PointRows;
use price_defs::{MOST_DIVISOR, Row, value_of};
use std::alloc::Global;

// Rows, each with the other end of a pair that it counts and that is full, where it stands at a point.
#[derive(Drop)]
pub struct Present {
    pub rows: Vec<Row>,
    pub ends: Vec<u32>,
}

// The rows of a tight certificate, with their ends.
pub fn present_of(
    alloc: Global,
    points: &Points,
    costs: &Costs,
    q: u64,
    clear: &ClearPairs,
    rows: Vec<Row>,
) -> Result<Present, NoMemory>
    requires valid { IsValid points.now costs.now q rows.items }
    requires tight { IsTight points.now costs.now q rows.items }
    requires small { q ≤ MOST_DIVISOR }
    requires clear { clear.now ≡ points.now }
    requires takers { sum_by lost rows.items ≤ 100000000000 }
    ensures rows { IfOk result (λ now. now.rows.items ≡ rows.items) }
    ensures ends { IfOk result (λ now. AreEnds points.now costs.now q now.rows.items now.ends.items) }
{
    let _listed = costs.list();
    let _count = points.len();
    let kept = PointRows::make(alloc, points, rows)?;
    let ends = full_ends(alloc, points, costs, q, clear, &kept)?;
    Ok(Present {
        rows: kept.into_rows(),
        ends,
    })
}

// Raises the first row Half(p,r), where there is one.
fn lift_row(
    points: &Points,
    costs: &Costs,
    q: u64,
    clear: &ClearPairs,
    kept: &mut PointRows,
    ends: &mut Vec<u32>,
    p: u32,
    r: u32,
)
    requires points { points.now ≡ kept.old.points }
    requires valid { IsValid points.now costs.now q kept.old.rows }
    requires small { q ≤ MOST_DIVISOR }
    requires clear { clear.now ≡ points.now }
    requires takers { sum_by lost kept.old.rows ≤ 100000000000 }
    requires settled { AreSettled points.now costs.now q p 0 kept.old.rows ends.old.items }
    ensures lifted { IsLifted points.now costs.now q p r kept.old.rows kept.new.rows }
    ensures settled { AreSettled points.now costs.now q p 0 kept.new.rows ends.new.items }
    ensures points { kept.new.points ≡ kept.old.points }
{
    let _rows = kept.rows();
    if let Some(k) = place_of(kept.rows(), p, r) {
        fill_row(points, costs, q, clear, kept, ends, k as u32);
    }
}

// The trial of p and r.
fn trial(
    alloc: Global,
    points: &Points,
    costs: &Costs,
    q: u64,
    clear: &ClearPairs,
    present: &Present,
    p: u32,
    r: u32,
) -> Result<Present, NoMemory>
    requires valid { IsValid points.now costs.now q present.now.rows.items }
    requires ends { AreEnds points.now costs.now q present.now.rows.items present.now.ends.items }
    requires small { q ≤ MOST_DIVISOR }
    requires clear { clear.now ≡ points.now }
    requires takers { sum_by lost present.now.rows.items ≤ 100000000000 }
    requires right { IsRight points.now (Half p r 0) }
    ensures trial { IfOk result (λ t. IsTrial points.now costs.now q p r present.now.rows.items t.rows.items) }
    ensures ends { IfOk result (λ t. AreEnds points.now costs.now q t.rows.items t.ends.items) }
    ensures light { IfOk result (λ t. AreLight t.rows.items) }
{
    let _listed = costs.list();
    let _count = points.len();
    let mut list = lowered_rows(alloc, present.rows.as_slice(), p)?;
    let mut ends = Vec::from_slice(alloc, present.ends.as_slice())?;
    open_row(&mut list, &mut ends, p, r)?;
    let mut kept = PointRows::make(alloc, points, list)?;
    lift_row(points, costs, q, clear, &mut kept, &mut ends, p, r);
    raise_rows(points, costs, q, clear, &mut kept, &mut ends, p);
    Ok(Present {
        rows: kept.into_rows(),
        ends,
    })
}

// The rows after a round with the words a and b.
pub fn round(
    alloc: Global,
    points: &Points,
    costs: &Costs,
    q: u64,
    clear: &ClearPairs,
    inner: &[u32],
    present: Present,
    a: u32,
    b: u32,
) -> Result<Present, NoMemory>
    requires valid { IsValid points.now costs.now q present.rows.items }
    requires ends { AreEnds points.now costs.now q present.rows.items present.ends.items }
    requires small { q ≤ MOST_DIVISOR }
    requires clear { clear.now ≡ points.now }
    requires takers { sum_by lost present.rows.items ≤ 100000000000 }
    requires inner { IsInnerList points.now inner.now }
    requires some { 0 < length inner.now }
    ensures round { IfOk result (λ t. IsRound points.now costs.now q inner.now a b present.rows.items t.rows.items) }
    ensures ends { IfOk result (λ t. AreEnds points.now costs.now q t.rows.items t.ends.items) }
{
    let _listed = costs.list();
    let _count = points.len();
    let p = inner_of(inner, a);
    let r = other_of(points, p, b);
    let trial = trial(alloc, points, costs, q, clear, &present, p, r)?;
    if value_of(q, present.rows.as_slice(), 0) <= value_of(q, trial.rows.as_slice(), 0) {
        Ok(trial)
    } else {
        Ok(present)
    }
}
