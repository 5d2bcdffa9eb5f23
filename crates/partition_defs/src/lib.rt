//! What a convex partition is, and a plain slow program that tests it by trying all points and pairs.
#![tactic(auto)]

ghost use Rattle.std.specs.Prelude.{◌<◌, ◌≢◌, ◌↔◌, length, IsTrue};
ghost use Rattle.plane.specs.Geometry.{IsBorderPair, IsInNeed, IsInner};
ghost use Rattle.partition_defs.specs.Partition.{HasEnds, Joins, AreWithin, AreClear, ArePlane, CrossesNone, HasBorder};
ghost use Rattle.partition_defs.specs.Partition.{HasBorderFrom, IsMet, MeetsNeedsAt, MeetsNeeds, IsConvexPartition};

pub mod laws;

use plane::{Pair, Points};

/// Whether the segment has these two ends, either way round.
pub fn has_ends(e: Pair, i: u32, j: u32) -> bool
    ensures { IsTrue result ↔ HasEnds e i j }
{
    (e.lo() == i && e.hi() == j) || (e.lo() == j && e.hi() == i)
}

/// Whether the segment of these two ends is in the list, either way round.
pub fn joins(list: &[Pair], i: u32, j: u32) -> bool
    ensures { IsTrue result ↔ Joins list.now i j }
{
    for e in list {
        if has_ends(*e, i, j) {
            return true;
        }
    }
    false
}

/// Whether all ends are indices of points.
pub fn are_within(points: &Points, list: &[Pair]) -> bool
    ensures { IsTrue result ↔ AreWithin points.now list.now }
{
    for e in list {
        if e.hi() >= points.len() {
            return false;
        }
    }
    true
}

/// Whether all segments are clear.
pub fn are_clear(points: &Points, list: &[Pair]) -> bool
    requires { AreWithin points.now list.now }
    ensures { IsTrue result ↔ AreClear points.now list.now }
{
    for e in list {
        if !points.is_clear(*e) {
            return false;
        }
    }
    true
}

/// Whether a segment crosses none of the list.
pub fn crosses_none(points: &Points, list: &[Pair], e: Pair) -> bool
    requires within { AreWithin points.now list.now }
    requires end { e.hi < length points.now }
    ensures { IsTrue result ↔ CrossesNone points.now list.now e }
{
    for f in list {
        if points.cross(e, *f) {
            return false;
        }
    }
    true
}

/// Whether no two segments cross.
pub fn are_plane(points: &Points, list: &[Pair]) -> bool
    requires { AreWithin points.now list.now }
    ensures { IsTrue result ↔ ArePlane points.now list.now }
{
    for e in list {
        if !crosses_none(points, list, *e) {
            return false;
        }
    }
    true
}

// Whether the pair is no border pair or is in the list.
fn has_border_at(points: &Points, list: &[Pair], i: u32, j: u32) -> bool
    requires ordered { i < j }
    requires within { j < length points.now }
    ensures { IsTrue result ↔ (IsBorderPair points.now i j → Joins list.now i j) }
{
    !points.is_border(Pair::of(i, j)) || joins(list, i, j)
}

/// Whether each border pair whose smaller index is `i` is in the list.
pub fn has_border_from(points: &Points, list: &[Pair], i: u32) -> bool
    requires { i < length points.now }
    ensures { IsTrue result ↔ HasBorderFrom points.now list.now i }
{
    let count = points.len();
    for j in i + 1..count {
        if !has_border_at(points, list, i, j) {
            return false;
        }
    }
    true
}

/// Whether each border pair is in the list.
pub fn has_border(points: &Points, list: &[Pair]) -> bool
    ensures { IsTrue result ↔ HasBorder points.now list.now }
{
    for i in 0..points.len() {
        if !has_border_from(points, list, i) {
            return false;
        }
    }
    true
}

// Whether the segment of `p` and `r` is in the list, and `r` is in the need of `p` for `q`.
fn meets(points: &Points, list: &[Pair], p: u32, q: u32, r: u32) -> bool
    requires p_in { p < length points.now }
    requires q_in { q < length points.now }
    requires r_in { r < length points.now }
    requires differ { p ≢ q }
    ensures { IsTrue result ↔ (Joins list.now p r × IsInNeed points.now p q r) }
{
    joins(list, p, r) && points.in_need(p, q, r)
}

/// Whether some segment at `p` has its other end in the need of `p` for `q`.
pub fn is_met(points: &Points, list: &[Pair], p: u32, q: u32) -> bool
    requires p_in { p < length points.now }
    requires q_in { q < length points.now }
    requires differ { p ≢ q }
    ensures { IsTrue result ↔ IsMet points.now list.now p q }
{
    for r in 0..points.len() {
        if meets(points, list, p, q, r) {
            return true;
        }
    }
    false
}

// Whether the need of `p` for `q` is met, or the two are one point.
fn is_met_or_same(points: &Points, list: &[Pair], p: u32, q: u32) -> bool
    requires p_in { p < length points.now }
    requires q_in { q < length points.now }
    ensures { IsTrue result ↔ (q ≢ p → IsMet points.now list.now p q) }
{
    q == p || is_met(points, list, p, q)
}

/// Whether all needs of `p` are met.
pub fn meets_needs_at(points: &Points, list: &[Pair], p: u32) -> bool
    requires { p < length points.now }
    ensures { IsTrue result ↔ MeetsNeedsAt points.now list.now p }
{
    for q in 0..points.len() {
        if !is_met_or_same(points, list, p, q) {
            return false;
        }
    }
    true
}

// Whether the point is no inner point or has all its needs met.
fn meets_needs_of(points: &Points, list: &[Pair], p: u32) -> bool
    requires { p < length points.now }
    ensures { IsTrue result ↔ (IsInner points.now p → MeetsNeedsAt points.now list.now p) }
{
    !points.is_inner(p) || meets_needs_at(points, list, p)
}

/// Whether each inner point has all its needs met.
pub fn meets_needs(points: &Points, list: &[Pair]) -> bool
    ensures { IsTrue result ↔ MeetsNeeds points.now list.now }
{
    for p in 0..points.len() {
        if !meets_needs_of(points, list, p) {
            return false;
        }
    }
    true
}

/// Whether the list's set is a convex partition. (The challenge's condition.)
pub fn is_convex_partition_plain(points: &Points, list: &[Pair]) -> bool
    ensures { IsTrue result ↔ IsConvexPartition points.now list.now }
{
    if !are_within(points, list) {
        return false;
    }
    if !are_clear(points, list) {
        return false;
    }
    if !are_plane(points, list) {
        return false;
    }
    if !has_border(points, list) {
        return false;
    }
    meets_needs(points, list)
}

#[cfg(test)]
mod tests;
