ghost use Rattle.std.specs.Prelude.{◌≡◌, ◌<◌, ◌≢◌, length, IsTrue, IfOk};
ghost use Rattle.star.specs.Turn.{IsInDirection};
ghost use Rattle.star.specs.Stars.{IsStar, IsFree, entry};

use crate::Star;
use crate::turn::is_before;
use plane::{Point, Points};
use std::alloc::Global;
use std::test::Fail;

mod gaps;
mod needs;

// A grid of three by three points about the origin; the point (x, y) has the index 3 * y + x + 4.
fn grid(alloc: Global) -> Result<Points, Fail>
    ensures { IfOk result (λ points. length points ≡ 9) }
{
    let mut list = Vec::new(alloc);
    for k in 0..9i64 {
        list.push(Point {
            x: k % 3 - 1,
            y: k / 3 - 1,
        })?;
    }
    if list.len() != 9 {
        return Err(Fail::from("not nine points"));
    }
    Ok(Points::make(list)?)
}

// The points of a list that is accepted.
fn accepted(list: Vec<Point>) -> Result<Points, Fail> {
    if list.len() > 5000 {
        return Err(Fail::from("too many points"));
    }
    Ok(Points::make(list)?)
}

// Whether the neighbour at k stands in another direction than q.
fn is_apart(points: &Points, star: &Star, k: u32, q: u32) -> bool
    requires points { points.now ≡ star.now.points }
    requires place { k < length star.now.list }
    requires within { q < length points.now }
    requires apart { q ≢ star.now.centre }
    ensures { IsTrue result → ¬ IsInDirection star.now.points star.now.centre (entry star.now.list k).0 q }
{
    let centre = star.centre();
    let r = star.at(k).0;
    if is_before(points, centre, q, r) {
        true
    } else {
        is_before(points, centre, r, q)
    }
}

// Whether no neighbour stands in the direction of q.
fn is_free(points: &Points, star: &Star, q: u32) -> bool
    requires points { points.now ≡ star.now.points }
    requires within { q < length points.now }
    requires apart { q ≢ star.now.centre }
    ensures { IsTrue result → IsFree star.now q }
{
    for k in 0..star.degree() {
        if !is_apart(points, star, k, q) {
            return false;
        }
    }
    true
}

// Puts a neighbour in.
fn put_in(points: &Points, star: &mut Star, q: u32) -> Result<(), Fail>
    requires points { points.now ≡ star.old.points }
    ensures points { star.new.points ≡ star.old.points }
{
    star.reserve(1)?;
    if q < points.len() && q != star.centre() && is_free(points, star, q) {
        star.insert(points, q);
    }
    Ok(())
}

fn put_all(points: &Points, star: &mut Star, list: &[u32]) -> Result<(), Fail>
    requires points { points.now ≡ star.old.points }
    ensures points { star.new.points ≡ star.old.points }
{
    for q in list {
        put_in(points, star, *q)?;
    }
    Ok(())
}

// Turns the mark of a neighbour round.
fn turn_mark(points: &Points, star: &mut Star, q: u32)
    requires points { points.now ≡ star.old.points }
    ensures points { star.new.points ≡ star.old.points }
{
    if let Some(k) = star.place(points, q) {
        if star.at(k).1 {
            star.drop_mark(points, q);
        } else {
            star.keep_mark(points, q);
        }
    }
}

fn turn_all(points: &Points, star: &mut Star, list: &[u32])
    requires points { points.now ≡ star.old.points }
    ensures points { star.new.points ≡ star.old.points }
{
    for q in list {
        turn_mark(points, star, *q);
    }
}

// Takes a neighbour out.
fn take_out(points: &Points, star: &mut Star, q: u32)
    requires points { points.now ≡ star.old.points }
    ensures points { star.new.points ≡ star.old.points }
{
    if star.place(points, q).is_some() {
        star.remove(points, q);
    }
}

fn listed(alloc: Global, star: &Star) -> Result<Vec<(u32, bool)>, Fail> {
    let mut list = Vec::new(alloc);
    for k in 0..star.degree() {
        list.push(star.at(k))?;
    }
    Ok(list)
}

// The neighbours of the origin, from the right, counterclockwise.
#[test]
fn neighbours_stand_in_turning_order(rt: HostRuntime) -> Result<(), Fail> {
    let points = grid(rt.alloc())?;
    let round = [5, 8, 7, 6, 3, 0, 1, 2];
    for order in [[0, 1, 2, 3, 5, 6, 7, 8], [5, 3, 7, 1, 8, 0, 6, 2], round] {
        let mut star = Star::make(rt.alloc(), &points, 4);
        put_all(&points, &mut star, &order)?;
        let list = listed(rt.alloc(), &star)?;
        let want = round.map(|q| (q, false));
        assert_eq!(rt; list.as_slice(), want.as_slice());
        assert_eq!(rt; (star.centre(), star.degree()), (4, 8));
        let places = [
            star.place(&points, 5),
            star.place(&points, 2),
            star.place(&points, 4),
        ];
        assert_eq!(rt; places, [Some(0), Some(7), None]);
        let nexts = [
            star.next(&points, 5),
            star.next(&points, 2),
            star.next(&points, 4),
        ];
        assert_eq!(rt; nexts, [Some(8), Some(5), None]);
    }
    Ok(())
}

#[test]
fn marks_go_with_their_neighbours(rt: HostRuntime) -> Result<(), Fail> {
    let points = grid(rt.alloc())?;
    let mut star = Star::make(rt.alloc(), &points, 0);
    put_all(&points, &mut star, &[7, 1, 3, 8, 5])?;
    assert_eq!(rt; star.kept_next(&points, 1), None);
    turn_all(&points, &mut star, &[3, 5, 8, 5]);
    take_out(&points, &mut star, 7);
    let same = star.copy(&points)?;
    let list = listed(rt.alloc(), &same)?;
    let want = [(1, false), (5, false), (8, true), (3, true)];
    assert_eq!(rt; list.as_slice(), want.as_slice());
    let kept = [1, 5, 8, 3, 7].map(|q| star.kept_next(&points, q));
    assert_eq!(rt; kept, [Some(8), Some(8), Some(3), Some(8), None]);
    turn_mark(&points, &mut star, 3);
    assert_eq!(rt; star.kept_next(&points, 8), Some(8));
    Ok(())
}
