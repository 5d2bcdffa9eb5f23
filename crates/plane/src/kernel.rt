// The numbers that the tests are made of, on coordinates. Besides, only the choice of guide points computes with
// coordinates.
ghost use Rattle.std.specs.Prelude.{◌≡◌, ◌*◌, ◌≤◌, ◌↔◌, ◌-ℤ◌, ◌*ℤ◌, unsigned_abs, IsTrue};
ghost use Rattle.plane.specs.Geometry.{area, scalar, IsTurn, AreOpposite, LiesBetween, DoCross};
ghost use Rattle.plane.specs.Accepted.{IsNear};

use crate::bounding_box::BoundingBox;
use crate::coordinates::{COORDINATE_LIMIT, Point, Turn};

// The step from one coordinate to another.
fn step(from: i64, to: i64) -> i64
    requires near_from { unsigned_abs from ≤ COORDINATE_LIMIT }
    requires near_to { unsigned_abs to ≤ COORDINATE_LIMIT }
    ensures step { result ≡ to -ℤ from }
    ensures size { unsigned_abs result ≤ 2 * COORDINATE_LIMIT }
{
    to - from
}

// A product of two steps.
fn product(a: i64, b: i64) -> i128
    requires size_a { unsigned_abs a ≤ 2 * COORDINATE_LIMIT }
    requires size_b { unsigned_abs b ≤ 2 * COORDINATE_LIMIT }
    ensures product { result ≡ a *ℤ b }
    ensures size { unsigned_abs result ≤ 2 * COORDINATE_LIMIT * (2 * COORDINATE_LIMIT) }
{
    i128::from(a) * i128::from(b)
}

/// Twice the signed area of the triangle of three points.
pub fn area_of(p: Point, q: Point, r: Point) -> i128
    requires near_p { IsNear p }
    requires near_q { IsNear q }
    requires near_r { IsNear r }
    ensures { result ≡ area p q r }
{
    let rising = product(step(p.x, q.x), step(p.y, r.y));
    let falling = product(step(p.y, q.y), step(p.x, r.x));
    rising - falling
}

/// The scalar product of the steps from the first point to the other two.
pub fn scalar_of(p: Point, q: Point, r: Point) -> i128
    requires near_p { IsNear p }
    requires near_q { IsNear q }
    requires near_r { IsNear r }
    ensures { result ≡ scalar p q r }
{
    let across = product(step(p.x, q.x), step(p.x, r.x));
    let upward = product(step(p.y, q.y), step(p.y, r.y));
    across + upward
}

/// The turn that a signed area shows.
pub fn turn_of(area: i128) -> Turn
    ensures { IsTurn result area }
{
    if area > 0 {
        Turn::Left
    } else if area < 0 {
        Turn::Right
    } else {
        Turn::Straight
    }
}

/// The turn at the second of three points that are given by their coordinates. (Textbook.)
pub fn turn_at(p: Point, q: Point, r: Point) -> Turn
    requires near_p { IsNear p }
    requires near_q { IsNear q }
    requires near_r { IsNear r }
    ensures { IsTurn result (area p q r) }
{
    turn_of(area_of(p, q, r))
}

/// Whether two numbers have opposite signs, neither being 0.
pub fn are_opposite(y: i128, z: i128) -> bool
    ensures { IsTrue result ↔ AreOpposite y z }
{
    (y < 0 && z > 0) || (y > 0 && z < 0)
}

/// Whether a point lies strictly between two others. Comparisons settle most cases without an area.
pub fn lies_between(p: Point, q: Point, r: Point) -> bool
    requires near_p { IsNear p }
    requires near_q { IsNear q }
    requires near_r { IsNear r }
    ensures { IsTrue result ↔ LiesBetween p q r }
{
    BoundingBox::of(q, r).has(p) && is_found_between(p, q, r)
}

/// Whether a point lies strictly between two others, by areas alone.
pub fn is_found_between(p: Point, q: Point, r: Point) -> bool
    requires near_p { IsNear p }
    requires near_q { IsNear q }
    requires near_r { IsNear r }
    ensures { IsTrue result ↔ LiesBetween p q r }
{
    area_of(q, p, r) == 0 && scalar_of(p, q, r) < 0
}

/// Whether the segments from `a` to `b` and from `c` to `d` cross. Comparisons settle most cases without an area.
pub fn do_cross(a: Point, b: Point, c: Point, d: Point) -> bool
    requires near_a { IsNear a }
    requires near_b { IsNear b }
    requires near_c { IsNear c }
    requires near_d { IsNear d }
    ensures { IsTrue result ↔ DoCross a b c d }
{
    could_cross(a, b, c, d) && parts(a, b, c, d) && parts(c, d, a, b)
}

// Whether the line from p to q has r and s strictly on its two sides.
fn parts(p: Point, q: Point, r: Point, s: Point) -> bool
    requires near_p { IsNear p }
    requires near_q { IsNear q }
    requires near_r { IsNear r }
    requires near_s { IsNear s }
    ensures { IsTrue result ↔ AreOpposite (area p q r) (area p q s) }
{
    are_opposite(area_of(p, q, r), area_of(p, q, s))
}

// Whether the boxes round two segments meet.
fn could_cross(a: Point, b: Point, c: Point, d: Point) -> bool
    ensures { DoCross a b c d → IsTrue result }
{
    BoundingBox::of(a, b).meets(&BoundingBox::of(c, d))
}
