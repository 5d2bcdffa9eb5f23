// The sums of all strips against the plain program.
use crate::{GivenSums, STRIP};
use plane::{Pair, Point, Points};
use price_defs::{MOST_ROWS, Row, RowList, are_light, are_right, load_of, stand_of};
use std::alloc::Global;
use std::process::Abort;
use std::test::Fail;

fn points_of(rt: &impl Abort, alloc: Global, list: &[(i64, i64)]) -> Result<Points, Fail> {
    let mut points = Vec::new(alloc);
    for (x, y) in list {
        points.push(Point { x: *x, y: *y })?;
    }
    assert!(rt; points.len() < 5001);
    Ok(Points::make(points)?)
}

// The Half and Three rows of a list, under which the load of a pair is what all rows give to it.
fn giving_of(alloc: Global, rows: &[Row]) -> Result<Vec<Row>, Fail> {
    let mut giving = Vec::new(alloc);
    for row in rows {
        if stand_of(*row).is_some() {
            giving.push(*row)?;
        }
    }
    Ok(giving)
}

// Whether the strip from `first` on has the plain loads of its pairs under the rows that give, where both lists may be added
// up.
fn is_plain_strip(
    alloc: Global,
    points: &Points,
    rows: &[Row],
    giving: &[Row],
    first: u32,
) -> Result<bool, Fail> {
    if rows.len() > MOST_ROWS as usize || !are_light(rows) || !are_right(points, rows) {
        return Ok(false);
    }
    if giving.len() > MOST_ROWS as usize || !are_light(giving) || !are_right(points, giving) {
        return Ok(false);
    }
    if first > points.len() {
        return Ok(false);
    }
    let list = RowList::make(rows.to_vec(alloc)?);
    let sums = GivenSums::make(alloc, points, &list, first)?;
    for i in first..points.len().min(first + STRIP) {
        for j in i + 1..points.len() {
            if sums.of(Pair::of(i, j)) as i64 != load_of(points, giving, i, j) {
                return Ok(false);
            }
        }
    }
    Ok(true)
}

// Checks the strips from these points on.
fn are_plain_strips(
    rt: &impl Abort,
    alloc: Global,
    points: &Points,
    rows: &[Row],
    firsts: &[u32],
) -> Result<(), Fail> {
    let giving = giving_of(alloc, rows)?;
    for first in firsts {
        assert!(rt;
            is_plain_strip(alloc, points, rows, giving.as_slice(), *first)?,
            "from {first}"
        );
    }
    Ok(())
}

#[test]
fn sums_of_five_points(rt: HostRuntime) -> Result<(), Fail> {
    let alloc = rt.alloc();
    let points = points_of(&rt, alloc, &[(0, 0), (0, 4), (4, 0), (4, 4), (2, 2)])?;
    let rows = [
        Row::Half { p: 4, q: 0, w: 3 },
        Row::Half { p: 4, q: 3, w: 5 },
        Row::Cap {
            e: Pair::of(2, 4),
            w: 2,
        },
        Row::Half { p: 4, q: 1, w: 7 },
        Row::Cross {
            e: Pair::of(0, 3),
            f: Pair::of(1, 2),
            w: 4,
        },
    ];
    are_plain_strips(&rt, alloc, &points, &rows, &[0, 1, 3, 4, 5])
}

// Points of a small square with its corners, drawn by multiplying: some are in line with others.
fn drawn_points(rt: &impl Abort, alloc: Global) -> Result<Points, Fail> {
    let mut points = Vec::new(alloc);
    for k in 0..70u32 {
        points.push(Point {
            x: i64::from(k * 37 % 71),
            y: i64::from(k % 9 * 7 + k % 2),
        })?;
    }
    points.push(Point { x: -9, y: -9 })?;
    points.push(Point { x: 90, y: -9 })?;
    points.push(Point { x: -9, y: 90 })?;
    points.push(Point { x: 90, y: 90 })?;
    assert!(rt; points.len() < 5001);
    Ok(Points::make(points)?)
}

#[test]
fn sums_of_three_strips(rt: HostRuntime) -> Result<(), Fail> {
    let alloc = rt.alloc();
    let points = drawn_points(&rt, alloc)?;
    let mut rows = Vec::new(alloc);
    for k in 0..70u32 {
        rows.push(Row::Half {
            p: k * 11 % 70,
            q: (k * 11 % 70 + 1 + k * 13 % 73) % 74,
            w: u64::from(k * 3 % 8),
        })?;
        if are_right(&points, [Row::Three { p: k, w: 1 }].as_slice()) {
            rows.push(Row::Three { p: k, w: 9 })?;
        }
    }
    let firsts = [0, 1, 31, 32, 33, 41, 42, 64, 73, 74];
    are_plain_strips(&rt, alloc, &points, rows.as_slice(), &firsts)
}
