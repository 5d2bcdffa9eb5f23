// Boxes with sides along the axes, and which side of a line they are on.
ghost use Rattle.std.specs.Prelude.{◌≡◌, ◌⊎◌, IsTrue, ◌↔◌, ◌<ℤ◌, ◌≤ℤ◌, pos};
ghost use Rattle.plane.specs.Geometry.{LiesBetween, area};
ghost use Rattle.plane.specs.Accepted.{IsNear};
ghost use Rattle.plane.specs.declared.coordinates.Point.{Point};
ghost use Rattle.boxes.specs.Bounds.{IsWithin, IsLowerLeft, IsUpperRight, HasNearCorners, IsOutOfRange};
ghost use Rattle.boxes.specs.Corners.{IsRightmost};

use plane::{Point, Turn, turn_at};

/// A box by its lower left and its upper right corner.
#[derive(Clone, Copy)]
pub struct Bounds {
    pub low: Point,
    pub high: Point,
}

/// The lower left corner of the box round two points.
pub fn lower_left(p: Point, q: Point) -> Point
    ensures { IsLowerLeft result p q }
{
    Point {
        x: p.x.min(q.x),
        y: p.y.min(q.y),
    }
}

/// The upper right corner of the box round two points.
pub fn upper_right(p: Point, q: Point) -> Point
    ensures { IsUpperRight result p q }
{
    Point {
        x: p.x.max(q.x),
        y: p.y.max(q.y),
    }
}

// The point with these coordinates.
fn point_at(x: i64, y: i64) -> Point
    ensures x { result.x ≡ x }
    ensures y { result.y ≡ y }
{
    Point { x, y }
}

// Whether two points are right of a third.
fn are_right_of(a: Point, b: Point, p: Point) -> bool
    ensures { IsTrue result ↔ ((p.x <ℤ a.x) × (p.x <ℤ b.x)) }
{
    p.x < a.x && p.x < b.x
}

// Whether two points are left of a third.
fn are_left_of(a: Point, b: Point, p: Point) -> bool
    ensures { IsTrue result ↔ ((a.x <ℤ p.x) × (b.x <ℤ p.x)) }
{
    a.x < p.x && b.x < p.x
}

// Whether two points are above a third.
fn are_above(a: Point, b: Point, p: Point) -> bool
    ensures { IsTrue result ↔ ((p.y <ℤ a.y) × (p.y <ℤ b.y)) }
{
    p.y < a.y && p.y < b.y
}

// Whether two points are below a third.
fn are_below(a: Point, b: Point, p: Point) -> bool
    ensures { IsTrue result ↔ ((a.y <ℤ p.y) × (b.y <ℤ p.y)) }
{
    a.y < p.y && b.y < p.y
}

impl Bounds {
    /// The box that has one point alone.
    pub fn around(p: Point) -> Bounds
        requires { IsNear p }
        ensures near { HasNearCorners result }
        ensures has { IsWithin result p }
    {
        Bounds { low: p, high: p }
    }

    /// The box that has one more point.
    pub fn with(&self, p: Point) -> Bounds
        requires near { HasNearCorners self.now }
        requires near_p { IsNear p }
        ensures near { HasNearCorners result }
        ensures has { IsWithin result p }
        ensures kept { (q : Point) → IsWithin self.now q → IsWithin result q }
    {
        Bounds {
            low: lower_left(self.low, p),
            high: upper_right(self.high, p),
        }
    }

    /// Whether the ranges of the coordinates of a and b have no number in common with those of the box, across or upward.
    pub fn is_out_of_range(&self, a: Point, b: Point) -> bool
        ensures { IsTrue result ↔ IsOutOfRange self.now a b }
    {
        if are_right_of(a, b, self.high) || are_left_of(a, b, self.low) {
            return true;
        }
        are_above(a, b, self.high) || are_below(a, b, self.low)
    }

    // The x of the corner that is furthest right of the line from a to b.
    fn rightmost_x(&self, a: Point, b: Point) -> i64
        ensures { ((a.y ≤ℤ b.y) × (result ≡ self.now.high.x)) ⊎ ((b.y ≤ℤ a.y) × (result ≡ self.now.low.x)) }
    {
        if a.y <= b.y { self.high.x } else { self.low.x }
    }

    // The y of the corner that is furthest right of the line from a to b.
    fn rightmost_y(&self, a: Point, b: Point) -> i64
        ensures { ((a.x ≤ℤ b.x) × (result ≡ self.now.low.y)) ⊎ ((b.x ≤ℤ a.x) × (result ≡ self.now.high.y)) }
    {
        if a.x <= b.x { self.low.y } else { self.high.y }
    }

    // The corner that is furthest right of the line from a to b.
    fn rightmost(&self, a: Point, b: Point) -> Point
        requires { HasNearCorners self.now }
        ensures near { IsNear result }
        ensures rightmost { IsRightmost self.now a b result }
    {
        point_at(self.rightmost_x(a, b), self.rightmost_y(a, b))
    }

    /// Whether no point of the box is right of the line from a to b.
    pub fn has_none_right(&self, a: Point, b: Point) -> bool
        requires near { HasNearCorners self.now }
        requires near_a { IsNear a }
        requires near_b { IsNear b }
        ensures { IsTrue result → (p : Point) → IsWithin self.now p → pos 0 ≤ℤ area a b p }
    {
        turn_at(a, b, self.rightmost(a, b)) != Turn::Right
    }

    // Whether all points of the box are strictly left of the line from a to b.
    fn has_all_left(&self, a: Point, b: Point) -> bool
        requires near { HasNearCorners self.now }
        requires near_a { IsNear a }
        requires near_b { IsNear b }
        ensures { IsTrue result → (p : Point) → IsWithin self.now p → pos 0 <ℤ area a b p }
    {
        turn_at(a, b, self.rightmost(a, b)) == Turn::Left
    }

    /// Whether the box is seen to have no point between a and b: it is out of their ranges, or on one side of their line.
    pub fn is_beside(&self, a: Point, b: Point) -> bool
        requires near { HasNearCorners self.now }
        requires near_a { IsNear a }
        requires near_b { IsNear b }
        ensures { IsTrue result → (p : Point) → IsWithin self.now p → ¬ LiesBetween p a b }
    {
        if self.is_out_of_range(a, b) {
            return true;
        }
        if self.has_all_left(a, b) {
            return true;
        }
        self.has_all_left(b, a)
    }
}
