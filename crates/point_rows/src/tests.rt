// Loads by points against the plain program, on the square and its centre.

use crate::PointRows;
use mcp_outside::NoMemory;
use plane::{Pair, Point, Points};
use price_defs::{MOST_ROWS, Row, are_light, are_right, load_of};
use std::alloc::Global;
use std::process::Abort;
use std::test::Fail;

fn points_of(rt: &impl Abort, alloc: Global, list: &[(i64, i64)]) -> Result<Points, Fail> {
    let mut points = Vec::new(alloc);
    for (x, y) in list {
        points.push(Point { x: *x, y: *y })?;
    }
    assert!(rt; points.len() < 5001);
    Ok(Points::make(points)?)
}

// Whether the loads of the pair of i and j agree, where the rows may be added up.
fn is_one_load(
    alloc: Global,
    points: &Points,
    rows: &[Row],
    i: u32,
    j: u32,
) -> Result<bool, NoMemory> {
    if rows.len() > MOST_ROWS as usize || !are_light(rows) || !are_right(points, rows) {
        return Ok(false);
    }
    if i == j || i >= points.len() || j >= points.len() {
        return Ok(false);
    }
    let kept = PointRows::make(alloc, points, rows.to_vec(alloc)?)?;
    let given = kept.gives(points, i, j);
    let taken = kept.takes(Pair::of(i, j));
    Ok(given as i64 - taken as i64 == load_of(points, rows, i, j))
}

#[test]
fn loads_by_points_are_plain_loads(rt: HostRuntime) -> Result<(), Fail> {
    let alloc = rt.alloc();
    let list = [(0, 0), (0, 4), (4, 0), (4, 4), (2, 2)];
    let points = points_of(&rt, alloc, &list)?;
    let rows = [
        Row::Half { p: 4, q: 0, w: 3 },
        Row::Cap {
            e: Pair::of(2, 4),
            w: 2,
        },
        Row::Half { p: 4, q: 3, w: 5 },
        Row::Half { p: 4, q: 1, w: 7 },
        Row::Cross {
            e: Pair::of(0, 3),
            f: Pair::of(1, 2),
            w: 4,
        },
    ];
    for i in 0..5u32 {
        for j in 0..5u32 {
            assert!(rt;
                i == j || is_one_load(alloc, &points, &rows, i, j)?,
                "of {i}-{j}"
            );
        }
    }
    Ok(())
}
