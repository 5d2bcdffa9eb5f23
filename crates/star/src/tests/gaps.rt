// What the kept answers say at small stars, and at a wheel of as many spokes as there may be.
ghost use Rattle.std.specs.Prelude.{◌≡◌, IfOk};

use super::{accepted, grid, put_all, put_in, turn_all, turn_mark};
use crate::Star;
use plane::{Point, Points};
use std::alloc::Global;
use std::test::Fail;

// A star without neighbours.
fn bare(alloc: Global, points: &Points, centre: u32) -> Result<Star, Fail>
    ensures { IfOk result (λ star. star.points ≡ points.now) }
{
    if centre >= points.len() {
        return Err(Fail::from("no such point"));
    }
    Ok(Star::make(alloc, points, centre))
}

// The answers at the kept neighbours, in the star's order.
fn opened(alloc: Global, star: &Star) -> Result<Vec<(u32, bool)>, Fail> {
    let mut list = Vec::new(alloc);
    for k in 0..star.degree() {
        let (q, kept) = star.at(k);
        if kept {
            list.push((q, star.opens_at(k)))?;
        }
    }
    Ok(list)
}

// The corners of a square and its middle, in another order than that of the star.
#[test]
fn a_square_and_its_middle(rt: HostRuntime) -> Result<(), Fail> {
    let mut list = Vec::new(rt.alloc());
    for (x, y) in [(0, 0), (0, 4), (4, 0), (4, 4), (2, 2)] {
        list.push(Point { x, y })?;
    }
    let points = accepted(list)?;
    let mut star = bare(rt.alloc(), &points, 4)?;
    put_all(&points, &mut star, &[0, 1, 2, 3])?;
    turn_all(&points, &mut star, &[0, 1, 2, 3]);
    let all = opened(rt.alloc(), &star)?;
    let want = [(3, false), (1, false), (0, false), (2, false)];
    assert_eq!(rt; all.as_slice(), want.as_slice());
    turn_mark(&points, &mut star, 0);
    let rest = opened(rt.alloc(), &star)?;
    let want = [(3, false), (1, true), (2, true)];
    assert_eq!(rt; rest.as_slice(), want.as_slice());
    Ok(())
}

// The origin of a grid with some neighbours kept, and which of these open a gap. A straight gap is small, one of more
// is wide, and a single kept neighbour leaves the whole turn.
#[test]
fn straight_gaps_are_small(rt: HostRuntime) -> Result<(), Fail> {
    let points = grid(rt.alloc())?;
    let rows: [(&[u32], &[bool]); 7] = [
        (&[], &[]),
        (&[5], &[true]),
        (&[5, 3], &[true, true]),
        (&[5, 7], &[true, true]),
        (&[5, 7, 3], &[true, false, true]),
        (&[5, 7, 3, 1], &[false, false, false, false]),
        (&[5, 6, 0], &[true, true, true]),
    ];
    for (kept, opening) in rows {
        let mut star = Star::make(rt.alloc(), &points, 4);
        put_all(&points, &mut star, &[0, 1, 2, 3, 5, 6, 7, 8])?;
        turn_all(&points, &mut star, kept);
        let mut want = Vec::new(rt.alloc());
        for (q, opens) in kept.iter().zip(opening) {
            want.push((*q, *opens))?;
        }
        let got = opened(rt.alloc(), &star)?;
        assert_eq!(rt; got.as_slice(), want.as_slice());
    }
    Ok(())
}

// Whether no whole number above 1 divides both.
fn are_coprime(x: i64, y: i64) -> bool {
    let (mut a, mut b) = (x.unsigned_abs(), y.unsigned_abs());
    while b != 0 {
        let r = a % b;
        a = b;
        b = r;
    }
    a == 1
}

// The origin, and points in 4,999 directions from it.
fn wheel(alloc: Global) -> Result<Points, Fail> {
    let mut list = Vec::new(alloc);
    list.push(Point { x: 0, y: 0 })?;
    for x in -46..47i64 {
        for y in -46..47i64 {
            if list.len() < 5000 && are_coprime(x, y) {
                list.push(Point { x, y })?;
            }
        }
    }
    accepted(list)
}

// Makes each point a kept neighbour.
fn keep_each(points: &Points, star: &mut Star) -> Result<(), Fail>
    requires points { points.now ≡ star.old.points }
    ensures points { star.new.points ≡ star.old.points }
{
    for q in 0..points.len() {
        put_in(points, star, q)?;
        turn_mark(points, star, q);
    }
    Ok(())
}

// Drops each kept neighbour that may go, in turn, and counts them.
fn drop_all(points: &Points, star: &mut Star) -> u32
    requires { points.now ≡ star.old.points }
{
    let mut dropped = 0u32;
    for k in 0..star.degree() {
        if k < star.degree() {
            let (q, kept) = star.at(k);
            if kept && !star.opens_at(k) {
                star.drop_mark(points, q);
                dropped = dropped.saturating_add(1);
            }
        }
    }
    dropped
}

#[test]
fn two_opposite_spokes_are_left_of_a_wheel(rt: HostRuntime) -> Result<(), Fail> {
    let points = wheel(rt.alloc())?;
    let mut star = bare(rt.alloc(), &points, 0)?;
    keep_each(&points, &mut star)?;
    assert_eq!(rt; star.degree(), 4999);
    assert_eq!(rt; drop_all(&points, &mut star), 4997);
    Ok(())
}
