// Raising: each Half and Three row, in its turn, by as much as the pairs that it counts allow.
ghost use Rattle.std.specs.Prelude.{◌≡◌, ◌≤◌, ◌<◌, ◌+◌, ℕ, None, length, IfOk, IfSome, MatchOption};
ghost use Rattle.std.specs.List.{AllZip, sum_by};
ghost use Rattle.price_defs.specs.Limits.{AreLight};
ghost use Rattle.price_defs.specs.Loads.{IsValid, lost, value};
ghost use Rattle.price_defs.specs.Raising.{AreRaised};
ghost use Rattle.price_defs.specs.Rows.{row_at, stand};
ghost use Rattle.price_defs.specs.Tight.{AreCovered, IsTight};
ghost use Rattle.raise_laws.specs.Laws.{Grows};
ghost use Rattle.dual_prices.specs.Raised.{IsFullEnd, IsRaisedAt};

use crate::rooms::least_room;
use cost_defs::Costs;
use directions::ClearPairs;
use mcp_outside::NoMemory;
use plane::Points;
use point_rows::PointRows;
use price_defs::{Certificate, MOST_DIVISOR, Row, RowList, stand_of, weight_of};
use std::alloc::Global;

/// Raises the row at `k`, where it is a Half or Three row, and shows the other end of a pair with which it is full then;
/// nothing of another row. The ends in `hints`, which may be any numbers, are looked at first: where a pair with one of
/// them is full, no other is tried. Whether pairs are clear is asked of `clear`, or of the points where there is none.
pub fn raise_row(
    points: &Points,
    costs: &Costs,
    q: u64,
    clear: Option<&ClearPairs>,
    kept: &mut PointRows,
    k: u32,
    hints: &[u32],
) -> Option<u32>
    requires points { points.now ≡ kept.old.points }
    requires valid { IsValid points.now costs.now q kept.old.rows }
    requires small { q ≤ MOST_DIVISOR }
    requires clear { IfSome clear (λ set. set.now ≡ points.now) }
    requires takers { sum_by lost kept.old.rows ≤ 100000000000 }
    requires place { k < length kept.old.rows }
    ensures rows { IsRaisedAt points.now costs.now q kept.old.rows k kept.new.rows }
    ensures end { MatchOption result (stand (row_at kept.new.rows k) ≡ None) (λ s. IsFullEnd points.now costs.now q kept.new.rows k s) }
    ensures points { kept.new.points ≡ kept.old.points }
{
    let _listed = costs.list();
    let _count = points.len();
    let row = kept.rows()[k as usize];
    let Some(p) = stand_of(row) else {
        return None;
    };
    match least_room(points, costs, q, clear, kept, row, p, hints) {
        Some(room) => {
            kept.set_weight(k, weight_of(row) + room.more);
            Some(room.end)
        }
        None => unreachable!(),
    }
}

/// The other end of a pair with which the row at `k` of a tight certificate is full, where it is a Half or Three row;
/// of another row some number.
pub fn full_end(
    points: &Points,
    costs: &Costs,
    q: u64,
    clear: Option<&ClearPairs>,
    kept: &PointRows,
    k: u32,
) -> u32
    requires points { points.now ≡ kept.now.points }
    requires valid { IsValid points.now costs.now q kept.now.rows }
    requires tight { IsTight points.now costs.now q kept.now.rows }
    requires small { q ≤ MOST_DIVISOR }
    requires clear { IfSome clear (λ set. set.now ≡ points.now) }
    requires place { k < length kept.now.rows }
    ensures { IsFullEnd points.now costs.now q kept.now.rows k result }
{
    let _count = points.len();
    let row = kept.rows()[k as usize];
    let Some(p) = stand_of(row) else {
        return 0;
    };
    let hints = [p.wrapping_sub(1), p.wrapping_add(1)];
    match least_room(points, costs, q, clear, kept, row, p, &hints) {
        Some(room) => room.end,
        None => unreachable!(),
    }
}

// The ends that are looked at first for the row at k: the one that was full with its point when that was last raised, or
// with which a row was full, and the points beside it by index.
fn hints_of(kept: &PointRows, partners: &[u32], k: u32) -> [u32; 3]
    requires { k < length kept.now.rows }
{
    let Some(p) = stand_of(kept.rows()[k as usize]) else {
        return [0; 3];
    };
    let partner = if p as usize >= partners.len() {
        0
    } else {
        partners[p as usize]
    };
    [partner, p.wrapping_sub(1), p.wrapping_add(1)]
}

// Notes that the pair of the row's point and an end is full.
fn note(kept: &PointRows, partners: &mut [u32], k: u32, end: u32)
    requires { k < length kept.now.rows }
{
    let Some(p) = stand_of(kept.rows()[k as usize]) else {
        return;
    };
    if (p as usize) < partners.len() && (end as usize) < partners.len() {
        partners[p as usize] = end;
        partners[end as usize] = p;
    }
}

// Raises the row at k, and notes with which end it is full.
fn raise_next(
    points: &Points,
    costs: &Costs,
    q: u64,
    kept: &mut PointRows,
    partners: &mut [u32],
    k: u32,
)
    requires points { points.now ≡ kept.old.points }
    requires valid { IsValid points.now costs.now q kept.old.rows }
    requires small { q ≤ MOST_DIVISOR }
    requires takers { sum_by lost kept.old.rows ≤ 100000000000 }
    requires place { k < length kept.old.rows }
    ensures rows { IsRaisedAt points.now costs.now q kept.old.rows k kept.new.rows }
    ensures points { kept.new.points ≡ kept.old.points }
{
    let hints = hints_of(kept, partners, k);
    if let Some(end) = raise_row(points, costs, q, None, kept, k, &hints) {
        note(kept, partners, k, end);
    }
}

// The raised rows of a certificate.
fn raised(
    alloc: Global,
    points: &Points,
    costs: &Costs,
    certificate: Certificate,
) -> Result<Vec<Row>, NoMemory>
    requires valid { IsValid points.now costs.now certificate.q certificate.rows }
    requires divisor { certificate.q ≤ MOST_DIVISOR }
    requires takers { sum_by lost certificate.rows ≤ 100000000000 }
    ensures raised { IfOk result (λ v. AreRaised points.now costs.now certificate.q certificate.rows v.items) }
    ensures light { IfOk result (λ v. AreLight v.items) }
{
    let _listed = costs.list();
    let _count = points.len();
    let Certificate { q, rows } = certificate;
    let mut kept = PointRows::make(alloc, points, rows.into_vec())?;
    let mut partners = vec![in alloc; 0u32; points.len() as usize]?;
    let count = kept.rows().len() as u32;
    for k in 0..count {
        raise_next(points, costs, q, &mut kept, partners.as_mut_slice(), k);
    }
    Ok(kept.into_rows())
}

/// The certificate with its rows raised once, in their order: the weight of each Half and Three row gets the least of
/// `q` times the cost, less the load, over the clear pairs that the row counts. (This project's own.)
pub fn raise_all(
    alloc: Global,
    points: &Points,
    costs: &Costs,
    certificate: Certificate,
) -> Result<Certificate, NoMemory>
    requires valid { IsValid points.now costs.now certificate.q certificate.rows }
    requires divisor { certificate.q ≤ MOST_DIVISOR }
    requires takers { sum_by lost certificate.rows ≤ 100000000000 }
    ensures raised { IfOk result (λ c. AreRaised points.now costs.now certificate.q certificate.rows c.rows) }
    ensures divisor { IfOk result (λ c. c.q ≡ certificate.q) }
    ensures valid { IfOk result (λ c. IsValid points.now costs.now c.q c.rows) }
    ensures tight { IfOk result (λ c. AreCovered points.now certificate.rows → IsTight points.now costs.now c.q c.rows) }
    ensures grown { IfOk result (λ c. AllZip Grows certificate.rows c.rows) }
    ensures light { IfOk result (λ c. AreLight c.rows) }
    ensures value { IfOk result (λ c. (h : ℕ) → value h certificate.q certificate.rows ≤ value h c.q c.rows) }
{
    let q = certificate.q;
    let rows = raised(alloc, points, costs, certificate)?;
    Ok(Certificate {
        q,
        rows: RowList::make(rows),
    })
}
