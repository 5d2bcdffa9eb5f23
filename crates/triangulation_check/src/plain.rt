// Apexes by trying all points.
ghost use Rattle.std.specs.Prelude.{◌≢◌, ◌<◌, ◌↔◌, length, IsTrue, pos, ◌≤ℤ◌};
ghost use Rattle.plane.specs.Geometry.{orientation, IsInTriangle, IsEmptyTriangle};
ghost use Rattle.partition_defs.specs.Triangulation.{IsApex, HasLeft};
ghost use Rattle.triangulation_check.specs.Apexes.{HasApex, HasApexWhereLeft};

use partition_defs::joins;
use plane::{Pair, Points, Turn};

// Whether a point is left of the line from p to q or on it.
fn is_not_right(points: &Points, p: u32, q: u32, s: u32) -> bool
    requires p_in { p < length points.now }
    requires q_in { q < length points.now }
    requires s_in { s < length points.now }
    ensures { IsTrue result ↔ (pos 0 ≤ℤ orientation points.now p q s) }
{
    match points.orient(p, q, s) {
        Turn::Left => true,
        Turn::Straight => true,
        Turn::Right => false,
    }
}

// Whether a point is in the closed triangle.
fn is_in_triangle(points: &Points, p: u32, q: u32, r: u32, s: u32) -> bool
    requires p_in { p < length points.now }
    requires q_in { q < length points.now }
    requires r_in { r < length points.now }
    requires s_in { s < length points.now }
    ensures { IsTrue result ↔ IsInTriangle points.now p q r s }
{
    is_not_right(points, p, q, s) && is_not_right(points, q, r, s) && is_not_right(points, r, p, s)
}

// Whether the closed triangle has no further point.
fn is_empty_triangle(points: &Points, p: u32, q: u32, r: u32) -> bool
    requires p_in { p < length points.now }
    requires q_in { q < length points.now }
    requires r_in { r < length points.now }
    ensures { IsTrue result ↔ IsEmptyTriangle points.now p q r }
{
    for s in 0..points.len() {
        if s != p && s != q && s != r && is_in_triangle(points, p, q, r, s) {
            return false;
        }
    }
    true
}

// Whether the point is the apex of p to q.
fn is_apex(points: &Points, list: &[Pair], p: u32, q: u32, r: u32) -> bool
    requires p_in { p < length points.now }
    requires q_in { q < length points.now }
    requires r_in { r < length points.now }
    ensures { IsTrue result ↔ IsApex points.now list.now p q r }
{
    if !joins(list, p, r) || !joins(list, q, r) {
        return false;
    }
    points.is_left(p, q, r) && is_empty_triangle(points, p, q, r)
}

// Whether p to q has an apex.
fn has_apex(points: &Points, list: &[Pair], p: u32, q: u32) -> bool
    requires p_in { p < length points.now }
    requires q_in { q < length points.now }
    ensures { IsTrue result ↔ HasApex points.now list.now p q }
{
    for r in 0..points.len() {
        if is_apex(points, list, p, q, r) {
            return true;
        }
    }
    false
}

// Whether some point is left of p to q.
fn has_left(points: &Points, p: u32, q: u32) -> bool
    requires p_in { p < length points.now }
    requires q_in { q < length points.now }
    ensures { IsTrue result ↔ HasLeft points.now p q }
{
    for s in 0..points.len() {
        if points.is_left(p, q, s) {
            return true;
        }
    }
    false
}

/// Whether p to q has an apex, or no point is left of it.
pub fn has_apex_where_left(points: &Points, list: &[Pair], p: u32, q: u32) -> bool
    requires p_in { p < length points.now }
    requires q_in { q < length points.now }
    ensures { IsTrue result ↔ HasApexWhereLeft points.now list.now p q }
{
    !has_left(points, p, q) || has_apex(points, list, p, q)
}
