// Which list of points is accepted, and the first fault of one that isn't.
ghost use Rattle.std.specs.Prelude.{◌≡◌, ◌≢◌, ◌<◌, ◌≤◌, ◌+◌, ◌^◌, ◌↔◌, ℕ, length, vec_len, pos, IsTrue, IsFalse, IfSome, IfNone};
ghost use Rattle.plane.specs.First.{IsLeastOrNone, IsFirstPairOrNone};
ghost use Rattle.plane.specs.Geometry.{point, orientation};
ghost use Rattle.plane.specs.Accepted.{AreAccepted, AreNear, AreApart, AreOnOneLine, AreSpread, IsFault, IsNear};
ghost use Rattle.plane.specs.Making.{IsNextEqual};

use crate::coordinates::{BadPoints, COORDINATE_LIMIT, FEWEST_POINTS, MOST_POINTS, Point};
use crate::kernel::area_of;

/// The first fault of a list of points, or none where it is accepted.
pub fn first_fault(list: &[Point]) -> Option<BadPoints>
    requires { length list.now < 2 ^ 32 }
    ensures fault { IfSome result (IsFault list.now) }
    ensures none { IfNone result (AreAccepted list.now) }
{
    let count = list.len();
    if count < FEWEST_POINTS {
        return Some(BadPoints::TooFew(count as u32));
    }
    if count > MOST_POINTS {
        return Some(BadPoints::TooMany(count as u32));
    }
    if let Some(i) = first_far(list) {
        return Some(BadPoints::TooFar(i));
    }
    if let Some((i, j)) = first_same_place(list) {
        return Some(BadPoints::SamePlace(i, j));
    }
    if are_on_one_line(list) {
        return Some(BadPoints::OneLine);
    }
    None
}

fn is_near(p: Point) -> bool
    ensures { IsTrue result ↔ IsNear p }
{
    p.x.unsigned_abs() <= COORDINATE_LIMIT && p.y.unsigned_abs() <= COORDINATE_LIMIT
}

// The least index of a point beyond the limit.
fn first_far(list: &[Point]) -> Option<u32>
    requires { length list.now < 2 ^ 32 }
    ensures { IsLeastOrNone (λ k. ¬ IsNear (point list.now k)) (length list.now) result }
{
    for k in 0..list.len() as u32 {
        if !is_near(list[k as usize]) {
            return Some(k);
        }
    }
    None
}

// The first two equal points. They are looked for only where there are some.
fn first_same_place(list: &[Point]) -> Option<(u32, u32)>
    requires { length list.now ≤ MOST_POINTS }
    ensures { IsFirstPairOrNone (λ k l. point list.now k ≡ point list.now l) (length list.now) result }
{
    if are_apart(list) {
        None
    } else {
        first_equal_pair(list)
    }
}

// Whether no two points are equal: no two that are neighbours in order.
fn are_apart(list: &[Point]) -> bool
    requires { length list.now ≤ MOST_POINTS }
    ensures { IsTrue result ↔ AreApart list.now }
{
    let mut room = [Point { x: 0, y: 0 }; MOST_POINTS];
    let sorted = &mut room[..list.len()];
    sorted.copy_from_slice(list);
    sorted.sort_unstable();
    sorted.is_sorted_by(|p, q| p < q)
}

// The first two equal points, by a look at every pair.
fn first_equal_pair(list: &[Point]) -> Option<(u32, u32)>
    requires { length list.now < 2 ^ 32 }
    ensures { IsFirstPairOrNone (λ k l. point list.now k ≡ point list.now l) (length list.now) result }
{
    for i in 0..list.len() as u32 {
        if let Some(j) = next_equal(list, i) {
            return Some((i, j));
        }
    }
    None
}

// The least index after i of a point equal to that at i.
fn next_equal(list: &[Point], i: u32) -> Option<u32>
    requires few { length list.now < 2 ^ 32 }
    requires i_in { i < length list.now }
    ensures { IsNextEqual list.now i result }
{
    let p = list[i as usize];
    for j in i + 1..list.len() as u32 {
        if list[j as usize] == p {
            return Some(j);
        }
    }
    None
}

// Whether all points lie on the line through the first two, which differ.
fn are_on_one_line(list: &[Point]) -> bool
    requires count { 2 ≤ length list.now }
    requires few { length list.now < 2 ^ 32 }
    requires near { AreNear list.now }
    requires apart { AreApart list.now }
    ensures on { IsTrue result → AreOnOneLine list.now }
    ensures off { IsFalse result → AreSpread list.now }
{
    let (p, q) = (list[0], list[1]);
    for k in 0..list.len() as u32 {
        if area_of(p, q, list[k as usize]) != 0 {
            return false;
        }
    }
    true
}
