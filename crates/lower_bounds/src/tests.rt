// Lower bounds of small instances, added up by hand.
use crate::{Search, lower_bound};
use cost_defs::Costs;
use plane::{Pair, Point, Points};
use std::alloc::Global;
use std::process::Abort;
use std::test::Fail;
use triangulate::start;

fn make(rt: &impl Abort, alloc: Global, list: &[(i64, i64)]) -> Result<Points, Fail> {
    let mut points = Vec::new(alloc);
    for (x, y) in list {
        points.push(Point { x: *x, y: *y })?;
    }
    assert!(rt; points.len() < 5001);
    Ok(Points::make(points)?)
}

const SQUARE: &[(i64, i64)] = &[(0, 0), (0, 4), (4, 0), (4, 4)];

const SQUARE_WITH_CENTRE: &[(i64, i64)] = &[(0, 0), (0, 4), (4, 0), (4, 4), (2, 2)];

const TRIANGLE_WITH_POINT: &[(i64, i64)] = &[(0, 0), (6, 0), (0, 6), (2, 1)];

const POINT_INSIDE_A_SIDE: &[(i64, i64)] = &[(0, 0), (2, 0), (4, 0), (0, 4)];

// The bound with no worker, with workers that make no round, and with rounds that can't do better than the optimum.
#[test]
fn bounds_of_small_instances(rt: HostRuntime) -> Result<(), Fail> {
    let cases = [
        (SQUARE, 4),
        (SQUARE_WITH_CENTRE, 6),
        (TRIANGLE_WITH_POINT, 6),
        (POINT_INSIDE_A_SIDE, 4),
    ];
    for (list, want) in cases {
        let points = make(&rt, rt.alloc(), list)?;
        let pairs = start(rt.alloc(), &points)?;
        for (workers, rounds) in [(0, 0), (0, 10), (2, 0), (3, 10)] {
            let search = Search {
                workers,
                rounds,
                seed: 7,
            };
            let found = lower_bound(&rt, rt.alloc(), &points, &Costs::unit(), &pairs, search)?;
            assert_eq!(rt; found.bound, want, "of {list:?} with {workers} workers");
        }
    }
    Ok(())
}

// Border pairs have their costs: a side that costs nothing, and one that costs 10.
#[test]
fn border_pairs_have_their_costs(rt: HostRuntime) -> Result<(), Fail> {
    let points = make(&rt, rt.alloc(), SQUARE)?;
    let pairs = start(rt.alloc(), &points)?;
    let mut list = Vec::new(rt.alloc());
    list.push((Pair::of(0, 1), 0))?;
    list.push((Pair::of(2, 3), 10))?;
    let search = Search {
        workers: 1,
        rounds: 3,
        seed: 1,
    };
    let found = lower_bound(&rt, rt.alloc(), &points, &Costs::make(list), &pairs, search)?;
    assert_eq!(rt; found.bound, 12);
    Ok(())
}
