//! Laws of points in the plane: what the orientations of points have to do with one another, and which segments can't
//! cross. Each is a function that does nothing; its contract is the law.
#![tactic(auto)]

ghost use Rattle.std.specs.Prelude.{◌≡◌, ◌≢◌, ◌+ℤ◌, neg_ℤ, pos, ◌<ℤ◌, ◌≤ℤ◌, ◌⊎◌, ◌↔◌};
ghost use Rattle.plane.specs.Geometry.{point, orientation, IsBetween, AreCrossing};
ghost use Rattle.plane_laws.specs.Order.{IsBefore, AreInOrder, IsAmid};

mod quads;

use plane::Points;
pub use quads::{diagonals_of_four, leaves_triangle, other_diagonal_of_four};

/// The orientation of three points stays where they change places in a cycle, and turns where the first two change
/// places. (Textbook.)
pub fn orientation_turns(points: &Points, p: u32, q: u32, r: u32)
    ensures cycle { orientation points.now q r p ≡ orientation points.now p q r }
    ensures swap { orientation points.now q p r ≡ neg_ℤ (orientation points.now p q r) }
{}

/// Of the triangles of four points two have the same areas together as the other two. (Textbook.)
pub fn areas_of_four(points: &Points, p: u32, q: u32, r: u32, s: u32)
    ensures { orientation points.now p q r +ℤ orientation points.now p r s ≡ orientation points.now p q s +ℤ orientation points.now q r s }
{}

/// What the orientations of four points in the order by x, then by y, have to do with one another. (Textbook: the slopes of
/// steps to the right are ordered.)
pub fn four_in_order(points: &Points, p: u32, q: u32, r: u32, s: u32)
    ensures { IsBefore (point points.now p) (point points.now q) → IsBefore (point points.now q) (point points.now r)
        → IsBefore (point points.now r) (point points.now s)
        → AreInOrder (orientation points.now p q r) (orientation points.now p q s)
        (orientation points.now p r s) (orientation points.now q r s) }
{}

/// A point is strictly between two others exactly where it is in line with them and stands between them in the order by x,
/// then by y. (Textbook.)
pub fn between_is_amid(points: &Points, k: u32, p: u32, q: u32)
    ensures { IsBefore (point points.now p) (point points.now q) → (IsBetween points.now k p q ↔ IsAmid points.now k p q) }
{}

/// Points in line with two others are in line. (Textbook.)
pub fn points_in_line(points: &Points, p: u32, q: u32, a: u32, b: u32, c: u32)
    requires { point points.now p ≢ point points.now q }
    ensures { orientation points.now p q a ≡ pos 0 → orientation points.now p q b ≡ pos 0
        → orientation points.now p q c ≡ pos 0 → orientation points.now a b c ≡ pos 0 }
{}

/// Two segments that lie on the two closed sides of a line don't cross. (Textbook.)
pub fn segments_on_two_sides(points: &Points, p: u32, q: u32, a: u32, b: u32, c: u32, d: u32)
    requires { point points.now p ≢ point points.now q }
    ensures { orientation points.now p q a ≤ℤ pos 0 → orientation points.now p q b ≤ℤ pos 0
        → pos 0 ≤ℤ orientation points.now p q c → pos 0 ≤ℤ orientation points.now p q d
        → ¬ AreCrossing points.now a b c d }
{}

/// A point z strictly right of p to q can be joined to both: these segments cross none whose ends aren't right of p to q.
/// (Textbook: a new point beyond the border sees a border pair.)
pub fn point_beyond_a_side(points: &Points, p: u32, q: u32, z: u32, k: u32, l: u32)
    ensures first { orientation points.now p q z <ℤ pos 0 → pos 0 ≤ℤ orientation points.now p q k
        → pos 0 ≤ℤ orientation points.now p q l → ¬ AreCrossing points.now p z k l }
    ensures second { orientation points.now p q z <ℤ pos 0 → pos 0 ≤ℤ orientation points.now p q k
        → pos 0 ≤ℤ orientation points.now p q l → ¬ AreCrossing points.now q z k l }
{}

#[cfg(test)]
mod tests;
