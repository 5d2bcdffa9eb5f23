// The order of small point sets, and that of drawn ones held against each pair of neighbours.
use crate::in_order;
use plane::{Point, Points};
use std::alloc::Global;
use std::process::Abort;
use std::test::Fail;

type Case = (&'static [(i64, i64)], &'static [u32]);

const FAR: i64 = 2305843009213693951;

const CASES: [Case; 4] = [
    (&[(0, 0), (4, 0), (0, 4), (4, 4)], &[0, 2, 1, 3]),
    (&[(3, 0), (2, 9), (1, 5), (0, 7)], &[3, 2, 1, 0]),
    (&[(5, 2), (5, -1), (5, 7), (4, 8)], &[3, 1, 0, 2]),
    (
        &[(FAR, -FAR), (-FAR, FAR), (FAR, FAR), (-FAR, -FAR)],
        &[3, 1, 0, 2],
    ),
];

fn make(rt: &impl Abort, alloc: Global, list: &[(i64, i64)]) -> Result<Points, Fail> {
    let mut points = Vec::new(alloc);
    for (x, y) in list {
        points.push(Point { x: *x, y: *y })?;
    }
    assert!(rt; points.len() < 5001);
    Ok(Points::make(points)?)
}

#[test]
fn orders_of_small_sets(rt: HostRuntime) -> Result<(), Fail> {
    for (list, order) in CASES {
        let points = make(&rt, rt.alloc(), list)?;
        assert_eq!(rt;
            in_order(rt.alloc(), &points)?.as_slice(),
            order,
            "of {list:?}"
        );
    }
    Ok(())
}
