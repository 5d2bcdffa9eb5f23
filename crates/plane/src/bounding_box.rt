// The box round two points, by which many tests are settled without an area.
ghost use Rattle.std.specs.Prelude.{◌↔◌, ◌≤ℤ◌, IsTrue};
ghost use Rattle.plane.specs.Boxes.{IsIntervalOf, IsBoxOf, IsInInterval, IsInBox, DoOverlap, DoMeet};

use crate::coordinates::Point;

/// All numbers from the least to the greatest.
#[derive(Clone, Copy)]
pub struct Interval {
    least: i64,
    greatest: i64,
}

impl Interval {
    fn of(a: i64, b: i64) -> Interval
        ensures { IsIntervalOf result a b }
    {
        Interval {
            least: a.min(b),
            greatest: a.max(b),
        }
    }

    fn has(&self, a: i64) -> bool
        ensures { IsTrue result ↔ IsInInterval self.now a }
    {
        self.least <= a && a <= self.greatest
    }

    fn meets(&self, other: &Interval) -> bool
        ensures { IsTrue result ↔ DoOverlap self.now other.now }
    {
        self.least <= other.greatest && other.least <= self.greatest
    }
}

/// The least box with sides along the axes that has two points.
#[derive(Clone, Copy)]
pub struct BoundingBox {
    across: Interval,
    upward: Interval,
}

impl BoundingBox {
    /// The box round two points.
    pub fn of(p: Point, q: Point) -> BoundingBox
        ensures { IsBoxOf result p q }
    {
        BoundingBox {
            across: Interval::of(p.x, q.x),
            upward: Interval::of(p.y, q.y),
        }
    }

    /// Whether a point is in the box or on its sides.
    pub fn has(&self, p: Point) -> bool
        ensures { IsTrue result ↔ IsInBox self.now p }
    {
        self.across.has(p.x) && self.upward.has(p.y)
    }

    /// Whether two boxes have a point in common.
    pub fn meets(&self, other: &BoundingBox) -> bool
        ensures { IsTrue result ↔ DoMeet self.now other.now }
    {
        self.across.meets(&other.across) && self.upward.meets(&other.upward)
    }
}
