// The plain slow program: it computes the definitions by trying all rows and points.
ghost use Rattle.std.specs.Prelude.{◌≡◌, ◌↔◌, ◌<◌, ◌≤◌, length, IsTrue, ℕ};
ghost use Rattle.std.specs.List.{All};
ghost use Rattle.plane.specs.Geometry.{IsBetween};
ghost use Rattle.price_defs.specs.Rows.{IsRight, AreRight, IsAlone, weight, stand, Counts, Lessens};
ghost use Rattle.price_defs.specs.Loads.{gives, takes, load, value, added, lost};
ghost use Rattle.price_defs.specs.Limits.{AreLight, IsIndexed};
ghost use Rattle.price_defs.specs.Raising.{reweigh};

use crate::row::{MOST_ROWS, MOST_WEIGHT, Row};
use partition_defs::has_ends;
use plane::Points;

/// The weight of a row.
pub fn weight_of(row: Row) -> u64
    ensures { result ≡ weight row }
{
    match row {
        Row::Half { p: _, q: _, w } => w,
        Row::Three { p: _, w } => w,
        Row::Cross { e: _, f: _, w } => w,
        Row::Cap { e: _, w } => w,
    }
}

/// The row with another weight.
pub fn reweighed(row: Row, v: u64) -> Row
    ensures { result ≡ reweigh row v }
{
    match row {
        Row::Half { p, q, w: _ } => Row::Half { p, q, w: v },
        Row::Three { p, w: _ } => Row::Three { p, w: v },
        Row::Cross { e, f, w: _ } => Row::Cross { e, f, w: v },
        Row::Cap { e, w: _ } => Row::Cap { e, w: v },
    }
}

/// The point at which a Half or Three row stands, or none of a Cross or Cap row.
pub fn stand_of(row: Row) -> Option<u32>
    ensures { result ≡ stand row }
{
    match row {
        Row::Half { p, q: _, w: _ } => Some(p),
        Row::Three { p, w: _ } => Some(p),
        Row::Cross { e: _, f: _, w: _ } => None,
        Row::Cap { e: _, w: _ } => None,
    }
}

/// Whether the row counts the pair of these two ends.
pub fn is_counted(points: &Points, row: Row, i: u32, j: u32) -> bool
    requires right { IsRight points.now row }
    requires i_in { i < length points.now }
    requires j_in { j < length points.now }
    ensures { IsTrue result ↔ Counts points.now row i j }
{
    match row {
        Row::Half { p, q, w: _ } => (i == p && points.in_need(p, q, j))
            || (j == p && points.in_need(p, q, i)),
        Row::Three { p, w: _ } => i == p || j == p,
        Row::Cross { e: _, f: _, w: _ } => false,
        Row::Cap { e: _, w: _ } => false,
    }
}

/// Whether the row takes its weight off the load of the pair of these two ends.
pub fn is_lessened(row: Row, i: u32, j: u32) -> bool
    ensures { IsTrue result ↔ Lessens row i j }
{
    match row {
        Row::Half { p: _, q: _, w: _ } => false,
        Row::Three { p: _, w: _ } => false,
        Row::Cross { e, f, w: _ } => has_ends(e, i, j) || has_ends(f, i, j),
        Row::Cap { e, w: _ } => has_ends(e, i, j),
    }
}

/// The weights of the rows that count the pair.
pub fn gives_of(points: &Points, rows: &[Row], i: u32, j: u32) -> u64
    requires right { AreRight points.now rows.now }
    requires few { length rows.now ≤ MOST_ROWS }
    requires light { AreLight rows.now }
    requires i_in { i < length points.now }
    requires j_in { j < length points.now }
    ensures { result ≡ gives points.now rows.now i j }
{
    let mut sum = 0;
    for row in rows {
        if is_counted(points, *row, i, j) {
            sum += weight_of(*row);
        }
    }
    sum
}

/// The weights of the rows that are taken off the pair's load.
pub fn takes_of(rows: &[Row], i: u32, j: u32) -> u64
    requires few { length rows.now ≤ MOST_ROWS }
    requires light { AreLight rows.now }
    ensures { result ≡ takes rows.now i j }
{
    let mut sum = 0;
    for row in rows {
        if is_lessened(*row, i, j) {
            sum += weight_of(*row);
        }
    }
    sum
}

/// The load of the pair of these two ends.
pub fn load_of(points: &Points, rows: &[Row], i: u32, j: u32) -> i64
    requires right { AreRight points.now rows.now }
    requires few { length rows.now ≤ MOST_ROWS }
    requires light { AreLight rows.now }
    requires i_in { i < length points.now }
    requires j_in { j < length points.now }
    ensures { result ≡ load points.now rows.now i j }
{
    gives_of(points, rows, i, j) as i64 - takes_of(rows, i, j) as i64
}

/// Whether the point is strictly between no two points.
pub fn is_alone(points: &Points, p: u32) -> bool
    requires { p < length points.now }
    ensures { IsTrue result ↔ IsAlone points.now p }
{
    for q in 0..points.len() {
        if !is_alone_with(points, p, q) {
            return false;
        }
    }
    true
}

fn is_alone_with(points: &Points, p: u32, q: u32) -> bool
    requires p_in { p < length points.now }
    requires q_in { q < length points.now }
    ensures { IsTrue result ↔ ((r : ℕ) → r < length points.now → ¬ IsBetween points.now p q r) }
{
    for r in 0..points.len() {
        if points.between(p, q, r) {
            return false;
        }
    }
    true
}

/// Whether the row is right.
pub fn is_right(points: &Points, row: Row) -> bool
    requires { IsIndexed points.now row }
    ensures { IsTrue result ↔ IsRight points.now row }
{
    match row {
        Row::Half { p, q, w: _ } => p != q && points.is_inner(p),
        Row::Three { p, w: _ } => points.is_inner(p) && is_alone(points, p),
        Row::Cross { e, f, w: _ } => points.cross(e, f),
        Row::Cap { e, w: _ } => points.is_clear(e),
    }
}

/// Whether the row speaks of points of the list alone.
pub fn is_indexed(points: &Points, row: Row) -> bool
    ensures { IsTrue result ↔ IsIndexed points.now row }
{
    let count = points.len();
    match row {
        Row::Half { p, q, w: _ } => p < count && q < count,
        Row::Three { p, w: _ } => p < count,
        Row::Cross { e, f, w: _ } => e.hi() < count && f.hi() < count,
        Row::Cap { e, w: _ } => e.hi() < count,
    }
}

/// Whether all rows speak of points of the list alone.
pub fn are_indexed(points: &Points, rows: &[Row]) -> bool
    ensures { IsTrue result ↔ All (IsIndexed points.now) rows.now }
{
    rows.iter().all(|row| is_indexed(points, *row))
}

// Whether the row is right, whatever it speaks of.
fn is_right_row(points: &Points, row: Row) -> bool
    ensures { IsTrue result ↔ IsRight points.now row }
{
    is_indexed(points, row) && is_right(points, row)
}

/// Whether all rows are right.
pub fn are_right(points: &Points, rows: &[Row]) -> bool
    ensures { IsTrue result ↔ AreRight points.now rows.now }
{
    rows.iter().all(|row| is_right_row(points, *row))
}

/// Whether all weights are within the limit.
pub fn are_light(rows: &[Row]) -> bool
    ensures { IsTrue result ↔ AreLight rows.now }
{
    rows.iter().all(|row| weight_of(*row) <= MOST_WEIGHT)
}

/// What the row adds to the sum under the value.
pub fn added_of(row: Row) -> u64
    requires { weight row ≤ MOST_WEIGHT }
    ensures { result ≡ added row }
{
    match row {
        Row::Half { p: _, q: _, w } => w,
        Row::Three { p: _, w } => 3 * w,
        Row::Cross { e: _, f: _, w: _ } => 0,
        Row::Cap { e: _, w: _ } => 0,
    }
}

/// What the row takes off the sum under the value.
pub fn lost_of(row: Row) -> u64
    ensures { result ≡ lost row }
{
    match row {
        Row::Half { p: _, q: _, w: _ } => 0,
        Row::Three { p: _, w: _ } => 0,
        Row::Cross { e: _, f: _, w } => w,
        Row::Cap { e: _, w } => w,
    }
}

/// The value of a certificate, where the border pairs cost `base`.
pub fn value_of(q: u64, rows: &[Row], base: u64) -> u64
    requires divisor { 0 < q }
    requires few { length rows.now ≤ MOST_ROWS }
    requires light { AreLight rows.now }
    requires base_small { base ≤ 1000000000000000 }
    ensures { result ≡ value base q rows.now }
{
    let mut plus = 0;
    let mut minus = 0;
    for row in rows {
        plus += added_of(*row);
        minus += lost_of(*row);
    }
    base + plus.saturating_sub(minus).div_ceil(q)
}
