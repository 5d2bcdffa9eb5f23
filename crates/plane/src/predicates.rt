// The tests on an accepted point set. Each answers exactly its definition.
ghost use Rattle.std.specs.Prelude.{◌≡◌, ◌≢◌, ◌<◌, ◌≤◌, ◌↔◌, length, IsTrue, ◌<ℤ◌, ◌≤ℤ◌, pos};
ghost use Rattle.plane.specs.First.{IsLeastOrNone};
ghost use Rattle.plane.specs.Geometry.{orientation, IsTurn, IsBetween, AreCrossing, AreOpposite, IsClear, HasAllLeft};
ghost use Rattle.plane.specs.Geometry.{IsBorderPair, IsInner, IsInNeed};

use crate::accepted::Points;
use crate::bounding_box::BoundingBox;
use crate::coordinates::Turn;
use crate::kernel::{area_of, do_cross, is_found_between, lies_between, turn_at};
use crate::segment::Pair;

impl Points {
    /// The turn at the second of three points. (Textbook.)
    pub fn orient(&self, p: u32, q: u32, r: u32) -> Turn
        requires p_in { p < length self.now }
        requires q_in { q < length self.now }
        requires r_in { r < length self.now }
        ensures { IsTurn result (orientation self.now p q r) }
    {
        turn_at(self.at(p), self.at(q), self.at(r))
    }

    /// Whether `r` is strictly left of the line from `p` to `q`. (Textbook.)
    pub fn is_left(&self, p: u32, q: u32, r: u32) -> bool
        requires p_in { p < length self.now }
        requires q_in { q < length self.now }
        requires r_in { r < length self.now }
        ensures { IsTrue result ↔ (pos 0 <ℤ orientation self.now p q r) }
    {
        self.area(p, q, r) > 0
    }

    fn area(&self, p: u32, q: u32, r: u32) -> i128
        requires p_in { p < length self.now }
        requires q_in { q < length self.now }
        requires r_in { r < length self.now }
        ensures { result ≡ orientation self.now p q r }
    {
        area_of(self.at(p), self.at(q), self.at(r))
    }

    /// Whether `p` is strictly between `q` and `r`. (Textbook.)
    pub fn between(&self, p: u32, q: u32, r: u32) -> bool
        requires p_in { p < length self.now }
        requires q_in { q < length self.now }
        requires r_in { r < length self.now }
        ensures { IsTrue result ↔ IsBetween self.now p q r }
    {
        lies_between(self.at(p), self.at(q), self.at(r))
    }

    /// Whether two segments cross: each has its ends strictly on the two sides of the other's line. (Textbook.)
    pub fn cross(&self, e: Pair, f: Pair) -> bool
        requires e_in { e.hi < length self.now }
        requires f_in { f.hi < length self.now }
        ensures { IsTrue result ↔ AreCrossing self.now e.lo e.hi f.lo f.hi }
    {
        do_cross(
            self.at(e.lo()),
            self.at(e.hi()),
            self.at(f.lo()),
            self.at(f.hi()),
        )
    }

    /// Whether `r` is in the need of `p` for `q`: strictly left of the line from `p` to `q`, or with `p` strictly between
    /// `q` and itself. (After the challenge's condition that no angle at an inner point is more than straight.)
    pub fn in_need(&self, p: u32, q: u32, r: u32) -> bool
        requires p_in { p < length self.now }
        requires q_in { q < length self.now }
        requires r_in { r < length self.now }
        requires differ { p ≢ q }
        ensures { IsTrue result ↔ IsInNeed self.now p q r }
    {
        r != p && (self.is_left(p, q, r) || self.between(p, q, r))
    }

    /// The least index strictly between the ends, or none where the segment is clear.
    pub fn first_between(&self, e: Pair) -> Option<u32>
        requires { e.hi < length self.now }
        ensures { IsLeastOrNone (λ k. IsBetween self.now k e.lo e.hi) (length self.now) result }
    {
        let (from, to) = (self.at(e.lo()), self.at(e.hi()));
        let bounds = BoundingBox::of(from, to);
        for k in 0..self.len() {
            let p = self.at(k);
            if bounds.has(p) && is_found_between(p, from, to) {
                return Some(k);
            }
        }
        None
    }

    /// Whether no point is strictly between the ends.
    pub fn is_clear(&self, e: Pair) -> bool
        requires { e.hi < length self.now }
        ensures { IsTrue result ↔ IsClear self.now e.lo e.hi }
    {
        self.first_between(e).is_none()
    }

    // Whether no point is right of the line from i to j.
    fn has_all_left(&self, i: u32, j: u32) -> bool
        requires i_in { i < length self.now }
        requires j_in { j < length self.now }
        ensures { IsTrue result ↔ HasAllLeft self.now i j }
    {
        for k in 0..self.len() {
            if self.orient(i, j, k) == Turn::Right {
                return false;
            }
        }
        true
    }

    /// Whether the segment is on the hull's border: clear, and all points on one closed side of its line. (Textbook.)
    pub fn is_border(&self, e: Pair) -> bool
        requires { e.hi < length self.now }
        ensures { IsTrue result ↔ IsBorderPair self.now e.lo e.hi }
    {
        (self.has_all_left(e.lo(), e.hi()) || self.has_all_left(e.hi(), e.lo())) && self.is_clear(e)
    }
}
