// The positions of crossings against the definition: every pair of positions is tried, in order.
ghost use Rattle.std.specs.Prelude.{◌<◌};

use crate::crossing_pairs;
use partition_defs::are_within;
use plane::{Pair, Point, Points};
use std::alloc::Global;
use std::process::Abort;
use std::test::Fail;

const WIDEST: i64 = 2_305_843_009_213_693_951;

fn points_of(rt: &impl Abort, list: Vec<Point>) -> Result<Points, Fail> {
    assert!(rt; list.len() < 5001);
    Ok(Points::make(list)?)
}

// Numbers that look drawn by lot.
fn next(state: u64) -> u64 {
    state
        .wrapping_mul(6_364_136_223_846_793_005)
        .wrapping_add(1_442_695_040_888_963_407)
}

fn drawn(state: u64, below: u32) -> u32
    requires { 0 < below }
{
    ((state >> 33) % u64::from(below)) as u32
}

// A list of drawn segments, some of them more than once.
fn segments_of(alloc: Global, seed: u64, points: u32, count: u32) -> Result<Vec<Pair>, Fail> {
    let mut list = Vec::new(alloc);
    if points == 0 {
        return Ok(list);
    }
    let mut state = seed;
    for _ in 0..count {
        state = next(state);
        let i = drawn(state, points);
        state = next(state);
        let j = drawn(state, points);
        if i != j {
            list.push(Pair::of(i, j))?;
        }
    }
    Ok(list)
}

fn do_cross(points: &Points, e: Pair, f: Pair) -> bool {
    let count = points.len();
    e.hi() < count && f.hi() < count && points.cross(e, f)
}

// The same by trying all pairs of positions.
fn by_trying(
    alloc: Global,
    points: &Points,
    list: &[Pair],
    most: u32,
) -> Result<Vec<(u32, u32)>, Fail> {
    let count = list.len().min(5_000) as u32;
    let mut found = Vec::new(alloc);
    for a in 0..count {
        for b in 0..count {
            let (e, f) = (list[a as usize], list[b as usize]);
            if a < b && found.len() < most as usize && do_cross(points, e, f) {
                found.push((a, b))?;
            }
        }
    }
    Ok(found)
}

// The list of crossings, or an empty one where an end is no point.
fn listed(
    alloc: Global,
    points: &Points,
    list: &[Pair],
    most: u32,
) -> Result<Vec<(u32, u32)>, Fail> {
    if list.len() > 5_000 || !are_within(points, list) {
        return Ok(Vec::new(alloc));
    }
    Ok(crossing_pairs(alloc, points, list, most)?)
}

// Whether the list of crossings is that of trying all, for several numbers of most.
fn agree(rt: &impl Abort, alloc: Global, points: &Points, list: &[Pair]) -> Result<(), Fail> {
    for most in [0, 1, 3, 10, u32::MAX] {
        let found = listed(alloc, points, list, most)?;
        let wanted = by_trying(alloc, points, list, most)?;
        assert!(rt; found.as_slice() == wanted.as_slice(), "most {most}");
    }
    Ok(())
}

// Lists of several lengths on the points.
fn agree_on(rt: &impl Abort, alloc: Global, points: &Points) -> Result<(), Fail> {
    for (seed, count) in [
        (1, 0),
        (2, 1),
        (3, 2),
        (4, 31),
        (5, 32),
        (6, 33),
        (7, 65),
        (8, 140),
        (9, 600),
    ] {
        let list = segments_of(alloc, seed, points.len(), count)?;
        agree(rt, alloc, points, list.as_slice())?;
    }
    Ok(())
}

#[test]
fn diagonals_of_a_square(rt: HostRuntime) -> Result<(), Fail> {
    let mut corners = Vec::new(rt.alloc());
    for (x, y) in [(0, 0), (0, 4), (4, 0), (4, 4)] {
        corners.push(Point { x, y })?;
    }
    let points = points_of(&rt, corners)?;
    let mut list = Vec::new(rt.alloc());
    for (i, j) in [(0, 1), (0, 2), (1, 3), (2, 3), (0, 3), (1, 2)] {
        list.push(Pair::of(i, j))?;
    }
    let found = listed(rt.alloc(), &points, list.as_slice(), 10)?;
    assert!(rt; found.as_slice() == [(4, 5)].as_slice());
    Ok(())
}

#[test]
fn on_a_grid(rt: HostRuntime) -> Result<(), Fail> {
    let mut list = Vec::new(rt.alloc());
    for x in 0..6i64 {
        for y in 0..5i64 {
            list.push(Point { x, y })?;
        }
    }
    agree_on(&rt, rt.alloc(), &points_of(&rt, list)?)
}

#[test]
fn on_two_columns(rt: HostRuntime) -> Result<(), Fail> {
    let mut list = Vec::new(rt.alloc());
    for k in 0..15u32 {
        let y = i64::from(k);
        list.push(Point { x: 0, y: 3 * y })?;
        list.push(Point {
            x: 1_000_000,
            y: 2 * y + 1,
        })?;
    }
    agree_on(&rt, rt.alloc(), &points_of(&rt, list)?)
}

#[test]
fn scattered(rt: HostRuntime) -> Result<(), Fail> {
    for (across, upward) in [(389, 577), (617, 231), (500, 3)] {
        let mut list = Vec::new(rt.alloc());
        for k in 0..40u32 {
            let k = i64::from(k);
            list.push(Point {
                x: k.wrapping_mul(across) % 1_009,
                y: k.wrapping_mul(upward) % 1_013,
            })?;
        }
        agree_on(&rt, rt.alloc(), &points_of(&rt, list)?)?;
    }
    Ok(())
}

#[test]
fn at_the_ends_of_the_range(rt: HostRuntime) -> Result<(), Fail> {
    let mut list = Vec::new(rt.alloc());
    for (x, y) in [
        (-WIDEST, -WIDEST),
        (WIDEST, WIDEST),
        (0, 0),
        (-WIDEST, WIDEST),
        (WIDEST, -WIDEST),
        (1, 1),
        (WIDEST - 1, WIDEST),
        (1 - WIDEST, -WIDEST),
        (0, WIDEST),
        (0, -WIDEST),
    ] {
        list.push(Point { x, y })?;
    }
    agree_on(&rt, rt.alloc(), &points_of(&rt, list)?)
}
