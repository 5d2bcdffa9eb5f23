// The plain program on certificates that were added up by hand.
use crate::{MOST_ROWS, Row, are_light, are_right, load_of, value_of};
use plane::{Pair, Point, Points};
use std::alloc::Global;
use std::process::Abort;
use std::test::Fail;

// The corners of a square and its centre.
const SQUARE: [(i64, i64); 5] = [(0, 0), (0, 4), (4, 0), (4, 4), (2, 2)];
// A triangle with a point inside that is between no two others.
const TRIANGLE: [(i64, i64); 4] = [(0, 0), (6, 0), (0, 6), (2, 1)];

fn points_of(rt: &impl Abort, alloc: Global, list: &[(i64, i64)]) -> Result<Points, Fail> {
    let mut points = Vec::new(alloc);
    for (x, y) in list {
        points.push(Point { x: *x, y: *y })?;
    }
    assert!(rt; points.len() < 5001);
    Ok(Points::make(points)?)
}

const fn half(p: u32, q: u32, w: u64) -> Row {
    Row::Half { p, q, w }
}

// The load of a pair, where the rows may be added up.
fn load(points: &Points, rows: &[Row], i: u32, j: u32) -> Option<i64> {
    if rows.len() > MOST_ROWS as usize || !are_light(rows) || !are_right(points, rows) {
        return None;
    }
    if i >= points.len() || j >= points.len() {
        return None;
    }
    Some(load_of(points, rows, i, j))
}

#[test]
fn loads_of_five_points(rt: HostRuntime) -> Result<(), Fail> {
    let points = points_of(&rt, rt.alloc(), &SQUARE)?;
    let cap = Row::Cap {
        e: Pair::of(0, 4),
        w: 1,
    };
    let cross = Row::Cross {
        e: Pair::of(0, 3),
        f: Pair::of(1, 2),
        w: 2,
    };
    let floor = [half(4, 0, 1), half(4, 3, 1)];
    // Rows, the two ends of a pair, and its load.
    let cases: [(&[Row], u32, u32, i64); 10] = [
        (&floor, 0, 4, 1),
        (&floor, 4, 2, 1),
        (&floor, 0, 1, 0),
        (&[half(4, 0, 2), half(4, 3, 1)], 2, 4, 2),
        (&[half(4, 0, 2), half(4, 3, 1)], 3, 4, 2),
        (&[half(4, 0, 2), half(4, 3, 1)], 0, 4, 1),
        (&[half(4, 0, 0), half(4, 3, 1)], 2, 4, 0),
        (&[half(4, 0, 0), half(4, 3, 1), cap], 4, 0, 0),
        (&[half(4, 0, 3), half(4, 3, 2)], 2, 4, 3),
        (&[cross, cap], 3, 0, -2),
    ];
    for (rows, i, j, wanted) in cases {
        assert_eq!(rt;
            load(&points, rows, i, j),
            Some(wanted),
            "of {i}-{j} under {rows:?}"
        );
    }
    Ok(())
}

// Each row, and whether it is right.
fn are_judged(rt: &impl Abort, points: &Points, cases: &[(Row, bool)]) {
    for (row, wanted) in cases {
        assert_eq!(rt; are_right(points, [*row].as_slice()), *wanted, "of {row:?}");
    }
}

#[test]
fn rows_that_are_right(rt: HostRuntime) -> Result<(), Fail> {
    let square = points_of(&rt, rt.alloc(), &SQUARE)?;
    let triangle = points_of(&rt, rt.alloc(), &TRIANGLE)?;
    let unclear = Row::Cap {
        e: Pair::of(0, 3),
        w: 1,
    };
    let apart = Row::Cross {
        e: Pair::of(0, 3),
        f: Pair::of(1, 4),
        w: 1,
    };
    let of_square = [
        (half(4, 0, 1), true),
        (half(4, 4, 1), false),
        (half(0, 4, 1), false),
        // The centre is strictly between two corners.
        (Row::Three { p: 4, w: 1 }, false),
        (unclear, false),
        (apart, false),
    ];
    are_judged(&rt, &square, &of_square);
    let of_triangle = [
        (Row::Three { p: 3, w: 1 }, true),
        (Row::Three { p: 0, w: 1 }, false),
    ];
    are_judged(&rt, &triangle, &of_triangle);
    Ok(())
}

#[test]
fn values(rt: HostRuntime) -> Result<(), Fail> {
    let cap = Row::Cap {
        e: Pair::of(0, 4),
        w: 3,
    };
    // The cost of the border pairs, the divisor, the rows and the value.
    let cases: [(u64, u64, &[Row], u64); 6] = [
        (4, 2, &[half(4, 0, 1), half(4, 3, 1)], 5),
        (4, 2, &[half(4, 0, 2), half(4, 3, 2)], 6),
        (3, 2, &[Row::Three { p: 3, w: 1 }], 5),
        (3, 2, &[Row::Three { p: 3, w: 2 }], 6),
        // Cross and Cap rows are taken off before the quotient is rounded up.
        (4, 2, &[half(4, 0, 4), cap], 5),
        (4, 2, &[cap], 4),
    ];
    for (base, q, rows, wanted) in cases {
        assert!(rt; rows.len() <= MOST_ROWS as usize && are_light(rows));
        assert_eq!(rt; value_of(q, rows, base), wanted, "of {rows:?}");
    }
    Ok(())
}
