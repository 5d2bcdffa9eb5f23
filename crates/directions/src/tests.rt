// Fans, clear pairs and opposite points against their definitions: grids, few lines, scattered points, the ends of the range
// of coordinates.
ghost use Rattle.std.specs.Prelude.{◌≡◌};

use crate::{ClearPairs, Fans, Opposites, clear_pairs, fan, opposite};
use plane::{Pair, Point, Points};
use std::alloc::Global;
use std::process::Abort;
use std::test::Fail;

const WIDEST: i64 = 2_305_843_009_213_693_951;

fn points_of(rt: &impl Abort, list: Vec<Point>) -> Result<Points, Fail> {
    assert!(rt; list.len() < 5001);
    Ok(Points::make(list)?)
}

// The least point after q such that p is strictly between it and q, by trying all.
fn across(points: &Points, p: u32, q: u32) -> Option<u32> {
    let count = points.len();
    if p >= count || q >= count {
        return None;
    }
    for r in 0..count {
        if q < r && points.between(p, q, r) {
            return Some(r);
        }
    }
    None
}

// The first two points that p is strictly between, by trying all.
fn by_trying(points: &Points, p: u32) -> Option<(u32, u32)> {
    for q in 0..points.len() {
        if let Some(r) = across(points, p, q) {
            return Some((q, r));
        }
    }
    None
}

// Whether q is above p, or level on its right.
fn is_upper(p: Point, q: Point) -> bool {
    p.y < q.y || (p.y == q.y && p.x < q.x)
}

// How many of the other points come before q round p: those of the half before, those right of q in its half, and those
// between p and q.
fn place_in_fan(points: &Points, p: u32, q: u32) -> u32 {
    let count = points.len();
    if p >= count || q >= count {
        return 0;
    }
    let upper = is_upper(points.at(p), points.at(q));
    let mut before = 0u32;
    for r in 0..count {
        let above = is_upper(points.at(p), points.at(r));
        let comes = if above == upper {
            points.is_left(p, r, q) || points.between(r, p, q)
        } else {
            above
        };
        if r != p && r != q && comes {
            before = before.saturating_add(1);
        }
    }
    before
}

// Whether the list has each other point at the place that the count of those before it says.
fn is_fan(points: &Points, p: u32, list: &[u32]) -> bool {
    let mut good = list.len() == points.len().saturating_sub(1) as usize;
    for (i, q) in list.iter().enumerate() {
        if *q == p || place_in_fan(points, p, *q) as usize != i {
            good = false;
        }
    }
    good
}

// The clear pairs by trying all.
fn clear_by_trying(alloc: Global, points: &Points) -> Result<Vec<Pair>, Fail> {
    let mut list = Vec::new(alloc);
    for i in 0..points.len() {
        for j in 0..points.len() {
            if i < j {
                let e = Pair::of(i, j);
                if e.hi() < points.len() && points.is_clear(e) {
                    list.push(e)?;
                }
            }
        }
    }
    Ok(list)
}

// Whether the set has exactly the pairs of a list.
fn has_exactly(points: &Points, set: &ClearPairs, list: &[Pair]) -> bool
    requires { points.now ≡ set.now }
{
    let mut good = true;
    for i in 0..points.len() {
        for j in 0..points.len() {
            if i < j {
                let e = Pair::of(i, j);
                if e.hi() < points.len() && set.has(e) != list.contains(&e) {
                    good = false;
                }
            }
        }
    }
    good
}

// Whether fans, clear pairs and their set are those of trying all.
fn are_found(rt: &impl Abort, alloc: Global, points: &Points) -> Result<(), Fail> {
    let mut fans = Fans::make(alloc, points)?;
    let mut list = Vec::new(alloc);
    for p in 0..points.len() {
        fans.write(points, p, &mut list)?;
        assert!(rt; is_fan(points, p, list.as_slice()), "at {p}");
    }
    let wanted = clear_by_trying(alloc, points)?;
    let found = clear_pairs(alloc, points)?;
    assert!(rt; found.as_slice() == wanted.as_slice());
    let set = ClearPairs::make(alloc, points)?;
    assert!(rt; has_exactly(points, &set, wanted.as_slice()));
    Ok(())
}

// Whether the searches find what trying all does, at every point.
fn is_found(rt: &impl Abort, alloc: Global, points: &Points) -> Result<(), Fail> {
    let mut opposites = Opposites::make(alloc, points)?;
    for p in 0..points.len() {
        let wanted = by_trying(points, p);
        assert_eq!(rt; opposites.first(points, p)?, wanted, "at {p}");
    }
    are_found(rt, alloc, points)
}

// A point for each number below n, by its coordinates.
fn made(alloc: Global, n: i64, across: i64, upward: i64) -> Result<Vec<Point>, Fail> {
    let mut list = Vec::new(alloc);
    for k in 0..n {
        let x = k.wrapping_mul(across) % 1_009;
        let y = k.wrapping_mul(upward) % 1_013;
        list.push(Point { x, y })?;
    }
    Ok(list)
}

#[test]
fn on_a_grid(rt: HostRuntime) -> Result<(), Fail> {
    let mut list = Vec::new(rt.alloc());
    for x in 0..7i64 {
        for y in 0..6i64 {
            list.push(Point { x, y })?;
        }
    }
    is_found(&rt, rt.alloc(), &points_of(&rt, list)?)
}

#[test]
fn on_two_lines(rt: HostRuntime) -> Result<(), Fail> {
    let mut list = Vec::new(rt.alloc());
    for k in 0..12u32 {
        let k = i64::from(k);
        list.push(Point { x: k, y: 2 * k })?;
        list.push(Point {
            x: 40 - 3 * k,
            y: 2 * k + 1,
        })?;
    }
    is_found(&rt, rt.alloc(), &points_of(&rt, list)?)
}

#[test]
fn scattered(rt: HostRuntime) -> Result<(), Fail> {
    for (across, upward) in [(389, 577), (17, 23), (500, 3), (1, 400)] {
        let list = made(rt.alloc(), 60, across, upward)?;
        is_found(&rt, rt.alloc(), &points_of(&rt, list)?)?;
    }
    Ok(())
}

#[test]
fn at_the_ends_of_the_range(rt: HostRuntime) -> Result<(), Fail> {
    let mut list = Vec::new(rt.alloc());
    for (x, y) in [
        (-WIDEST, -WIDEST),
        (WIDEST, WIDEST),
        (0, 0),
        (-WIDEST, WIDEST),
        (WIDEST, -WIDEST),
        (1, 1),
        (WIDEST - 1, WIDEST),
        (1 - WIDEST, -WIDEST),
        (0, WIDEST),
        (0, -WIDEST),
    ] {
        list.push(Point { x, y })?;
    }
    is_found(&rt, rt.alloc(), &points_of(&rt, list)?)
}

// Far points in directions that one word doesn't tell apart, and further ones in the same directions.
#[test]
fn in_directions_of_one_key(rt: HostRuntime) -> Result<(), Fail> {
    let mut list = Vec::new(rt.alloc());
    list.push(Point { x: 0, y: 0 })?;
    for k in 0..9u32 {
        let k = i64::from(k);
        for step in 1..3u32 {
            let step = i64::from(step);
            let far = step * 1_000_000_000_000;
            list.push(Point {
                x: far,
                y: (4 - k) * step,
            })?;
            list.push(Point {
                x: -far,
                y: (k - 3) * step,
            })?;
            list.push(Point {
                x: (k - 2).saturating_mul(step),
                y: far,
            })?;
        }
    }
    is_found(&rt, rt.alloc(), &points_of(&rt, list)?)
}

// A square with its centre: the fan of the centre begins at the upper half.
#[test]
fn fan_of_a_centre(rt: HostRuntime) -> Result<(), Fail> {
    let mut list = Vec::new(rt.alloc());
    for (x, y) in [(0, 0), (0, 4), (4, 0), (4, 4), (2, 2), (4, 2), (3, 2)] {
        list.push(Point { x, y })?;
    }
    let points = points_of(&rt, list)?;
    assert!(rt; points.len() > 4);
    assert!(rt; fan(rt.alloc(), &points, 4)?.as_slice() == [6, 5, 3, 1, 0, 2].as_slice());
    Ok(())
}

#[test]
fn of_one_point(rt: HostRuntime) -> Result<(), Fail> {
    let mut list = Vec::new(rt.alloc());
    for (x, y) in [(0, 0), (0, 4), (4, 0), (4, 4), (2, 2)] {
        list.push(Point { x, y })?;
    }
    let points = points_of(&rt, list)?;
    assert!(rt; points.len() > 4);
    assert_eq!(rt; opposite(rt.alloc(), &points, 4)?, Some((0, 3)));
    assert_eq!(rt; opposite(rt.alloc(), &points, 0)?, None);
    Ok(())
}
