// The next points on the hull's border, found without memory in at most two walks over all points, and in none from most
// inner points.
ghost use Rattle.std.specs.Prelude.{◌≡◌, ◌≢◌, ◌<◌, ◌↔◌, ℕ, ℤ, length, IsTrue};
ghost use Rattle.plane.specs.Geometry.{orientation, IsBetween, IsClear, IsInner, IsTurn};
ghost use Rattle.plane.specs.Hull.{IsOnSide, IsBorderStep, IsStepOrNone};
ghost use Rattle.plane.specs.Walks.{IsBeyond, IsFurther, IsStrictlyInTriangle, HasNoStep};

use crate::accepted::Points;
use crate::coordinates::Turn;
use crate::guides::GUIDE_COUNT;
use crate::segment::Pair;

// Whether a turn leads beyond the line that has all points on this side.
fn is_beyond(turn: Turn, side: Turn) -> bool
    requires { side ≢ Turn.Straight }
    ensures { (z : ℤ) → IsTurn turn z → (IsTrue result ↔ IsBeyond side z) }
{
    match (turn, side) {
        (Turn::Left, Turn::Right) => true,
        (Turn::Right, Turn::Left) => true,
        _ => false,
    }
}

impl Points {
    /// The next point on the border after `v`, counterclockwise, or none where `v` is an inner point: the pair is clear,
    /// and no point is right of the line from `v` to it. It takes at most two walks over all points. (Textbook.)
    pub fn border_after(&self, v: u32) -> Option<u32>
        requires { v < length self.now }
        ensures { IsStepOrNone self.now Turn.Left v result }
    {
        self.border_step(v, Turn::Left)
    }

    /// The next point on the border before `v`, counterclockwise, or none where `v` is an inner point: the pair is clear,
    /// and no point is left of the line from `v` to it. It takes at most two walks over all points. (Textbook.)
    pub fn border_before(&self, v: u32) -> Option<u32>
        requires { v < length self.now }
        ensures { IsStepOrNone self.now Turn.Right v result }
    {
        self.border_step(v, Turn::Right)
    }

    /// Whether the point is in no border pair. (Textbook.)
    pub fn is_inner(&self, v: u32) -> bool
        requires { v < length self.now }
        ensures { IsTrue result ↔ IsInner self.now v }
    {
        match self.border_after(v) {
            Some(_) => false,
            None => self.border_before(v).is_none(),
        }
    }

    // The border step from v with this side, or none.
    fn border_step(&self, v: u32, side: Turn) -> Option<u32>
        requires v_in { v < length self.now }
        requires bent { side ≢ Turn.Straight }
        ensures { IsStepOrNone self.now side v result }
    {
        if self.is_enclosed(v) {
            return None;
        }
        let start = self.other_than(v);
        let first = self.outermost(v, start, side);
        if self.is_step(side, v, first) {
            return Some(first);
        }
        let best = self.outermost(v, first, side);
        if self.is_step(side, v, best) {
            Some(best)
        } else {
            None
        }
    }

    // Whether v is strictly inside a triangle of guide points. The triangles share the first guide point, and the side at
    // which most of them fail is tested first.
    fn is_enclosed(&self, v: u32) -> bool
        requires { v < length self.now }
        ensures { IsTrue result → HasNoStep self.now v }
    {
        for i in 1..GUIDE_COUNT - 1 {
            if self.is_in_triangle(v, self.guide(i + 1), self.guide(0), self.guide(i)) {
                return true;
            }
        }
        false
    }

    // Whether v is strictly left of each side of the triangle.
    fn is_in_triangle(&self, v: u32, a: u32, b: u32, c: u32) -> bool
        requires v_in { v < length self.now }
        requires a_in { a < length self.now }
        requires b_in { b < length self.now }
        requires c_in { c < length self.now }
        ensures { IsTrue result ↔ IsStrictlyInTriangle self.now v a b c }
    {
        self.is_left(a, b, v) && self.is_left(b, c, v) && self.is_left(c, a, v)
    }

    fn other_than(&self, v: u32) -> u32
        ensures within { result < length self.now }
        ensures apart { result ≢ v }
    {
        let _count = self.len();
        if v == 0 { 1 } else { 0 }
    }

    fn is_step(&self, side: Turn, v: u32, w: u32) -> bool
        requires v_in { v < length self.now }
        requires w_in { w < length self.now }
        requires apart { w ≢ v }
        requires bent { side ≢ Turn.Straight }
        ensures { IsTrue result ↔ IsBorderStep self.now side v w }
    {
        self.has_all_on(side, v, w) && self.is_clear_between(v, w)
    }

    fn is_clear_between(&self, v: u32, w: u32) -> bool
        requires v_in { v < length self.now }
        requires w_in { w < length self.now }
        requires apart { w ≢ v }
        ensures { IsTrue result ↔ IsClear self.now v w }
    {
        self.is_clear(Pair::of(v, w))
    }

    // The point that is furthest out from v on a walk over all points that begins with start.
    fn outermost(&self, v: u32, start: u32, side: Turn) -> u32
        requires v_in { v < length self.now }
        requires start_in { start < length self.now }
        requires apart { start ≢ v }
        requires bent { side ≢ Turn.Straight }
        ensures within { result < length self.now }
        ensures apart { result ≢ v }
        ensures found { (w : ℕ) → IsBorderStep self.now side v w → ¬ IsBetween self.now v w start → result ≡ w }
        ensures turned { (w : ℕ) → IsBorderStep self.now side v w → ¬ IsBetween self.now v w result }
    {
        let mut best = start;
        for r in 0..self.len() {
            if r != v && self.is_further(v, best, r, side) {
                best = r;
            }
        }
        best
    }

    fn is_further(&self, v: u32, best: u32, r: u32, side: Turn) -> bool
        requires v_in { v < length self.now }
        requires best_in { best < length self.now }
        requires r_in { r < length self.now }
        requires bent { side ≢ Turn.Straight }
        ensures { IsTrue result ↔ IsFurther self.now side v best r }
    {
        is_beyond(self.orient(v, best, r), side) || self.between(r, v, best)
    }

    // Whether all points are on this side of the line from v to w, or on it.
    fn has_all_on(&self, side: Turn, v: u32, w: u32) -> bool
        requires v_in { v < length self.now }
        requires w_in { w < length self.now }
        requires bent { side ≢ Turn.Straight }
        ensures { IsTrue result ↔ ((k : ℕ) → k < length self.now → IsOnSide side (orientation self.now v w k)) }
    {
        for k in 0..self.len() {
            let turn = self.orient(v, w, k);
            if turn != side && turn != Turn::Straight {
                return false;
            }
        }
        true
    }
}
