// Which of two points comes first round a point: by direction, and by distance in one direction.
ghost use Rattle.std.specs.Prelude.{◌≢◌, ◌<◌, ◌↔◌, length, IsTrue};
ghost use Rattle.plane.specs.Geometry.{point};
ghost use Rattle.star.specs.Turn.{IsUpper, IsLower};
ghost use Rattle.directions.specs.Fans.{IsBeforeRound};

use plane::{Points, Turn};

// Whether q is above p, or level on its right.
pub fn is_upper(points: &Points, p: u32, q: u32) -> bool
    requires p_in { p < length points.now }
    requires q_in { q < length points.now }
    ensures { IsTrue result ↔ IsUpper (point points.now p) (point points.now q) }
{
    let (p, q) = (points.at(p), points.at(q));
    p.y < q.y || (q.y == p.y && p.x < q.x)
}

// Of two points above p, whether the one comes first.
fn comes_first_above(points: &Points, p: u32, q: u32, r: u32) -> bool
    requires p_in { p < length points.now }
    requires q_in { q < length points.now }
    requires r_in { r < length points.now }
    requires q_above { IsUpper (point points.now p) (point points.now q) }
    requires r_above { IsUpper (point points.now p) (point points.now r) }
    ensures { IsTrue result ↔ IsBeforeRound points.now p q r }
{
    match points.orient(p, q, r) {
        Turn::Left => true,
        Turn::Right => false,
        Turn::Straight => is_upper(points, q, r),
    }
}

// Of two points below p, whether the one comes first.
fn comes_first_below(points: &Points, p: u32, q: u32, r: u32) -> bool
    requires p_in { p < length points.now }
    requires q_in { q < length points.now }
    requires r_in { r < length points.now }
    requires q_below { IsLower (point points.now p) (point points.now q) }
    requires r_below { IsLower (point points.now p) (point points.now r) }
    ensures { IsTrue result ↔ IsBeforeRound points.now p q r }
{
    match points.orient(p, q, r) {
        Turn::Left => true,
        Turn::Right => false,
        Turn::Straight => is_upper(points, r, q),
    }
}

// Whether q comes before r, seen from p: its direction does, or it is nearer in the same direction.
pub fn comes_first(points: &Points, p: u32, q: u32, r: u32) -> bool
    requires p_in { p < length points.now }
    requires q_in { q < length points.now }
    requires r_in { r < length points.now }
    requires q_apart { q ≢ p }
    requires r_apart { r ≢ p }
    ensures { IsTrue result ↔ IsBeforeRound points.now p q r }
{
    let _count = points.len();
    if is_upper(points, p, q) {
        if is_upper(points, p, r) {
            return comes_first_above(points, p, q, r);
        }
        return true;
    }
    if is_upper(points, p, r) {
        return false;
    }
    comes_first_below(points, p, q, r)
}
