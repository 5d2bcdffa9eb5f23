use crate::{is_convex_partition_plain, joins};
use plane::{Pair, Point, Points};
use std::alloc::Global;
use std::process::Abort;
use std::test::Fail;

fn points_of(rt: &impl Abort, alloc: Global, list: &[(i64, i64)]) -> Result<Points, Fail> {
    let mut points = Vec::new(alloc);
    for (x, y) in list {
        points.push(Point { x: *x, y: *y })?;
    }
    assert!(rt; points.len() < 5001);
    Ok(Points::make(points)?)
}

fn pairs_of(rt: &impl Abort, alloc: Global, list: &[(u32, u32)]) -> Result<Vec<Pair>, Fail> {
    let mut pairs = Vec::new(alloc);
    for (i, j) in list {
        assert!(rt; *i != *j);
        pairs.push(Pair::of(*i, *j))?;
    }
    Ok(pairs)
}

// The corners of a square, then its centre where it is asked for.
const SQUARE: [(i64, i64); 4] = [(0, 0), (0, 4), (4, 0), (4, 4)];

const CENTRED: [(i64, i64); 5] = [(0, 0), (0, 4), (4, 0), (4, 4), (2, 2)];
// A triangle with a point inside its lower side.
const SIDED: [(i64, i64); 4] = [(0, 0), (2, 0), (4, 0), (0, 4)];

#[test]
fn the_definition_on_small_lists(rt: HostRuntime) -> Result<(), Fail> {
    // Each list of points and of pairs, and whether it is a convex partition, by hand.
    let cases: [(&[(i64, i64)], &[(u32, u32)], bool); 10] = [
        (&SQUARE, &[(0, 1), (2, 0), (1, 3), (2, 3)], true),
        (&SQUARE, &[(0, 1), (2, 0), (1, 3), (2, 3), (0, 3)], true),
        (&SQUARE, &[(0, 1), (2, 0), (1, 3)], false),
        (
            &SQUARE,
            &[(0, 1), (0, 2), (1, 3), (2, 3), (0, 3), (1, 2)],
            false,
        ),
        (&SQUARE, &[(0, 1), (0, 2), (1, 3), (2, 3), (0, 4)], false),
        (&CENTRED, &[(0, 1), (0, 2), (1, 3), (2, 3), (0, 4)], false),
        (&CENTRED, &[(0, 1), (0, 2), (1, 3), (2, 3), (0, 3)], false),
        // A straight angle at an inner point is no more than straight.
        (
            &CENTRED,
            &[(0, 1), (0, 2), (1, 3), (2, 3), (0, 4), (3, 4)],
            true,
        ),
        (&SIDED, &[(0, 2), (0, 3), (2, 3)], false),
        (&SIDED, &[(0, 1), (1, 2), (0, 3), (2, 3)], true),
    ];
    for (corners, list, wanted) in cases {
        let points = points_of(&rt, rt.alloc(), corners)?;
        let pairs = pairs_of(&rt, rt.alloc(), list)?;
        let told = is_convex_partition_plain(&points, pairs.as_slice());
        assert_eq!(rt; told, wanted, "in {list:?}");
    }
    let pairs = pairs_of(&rt, rt.alloc(), &[(3, 1)])?;
    assert!(rt; joins(pairs.as_slice(), 1, 3));
    assert!(rt; joins(pairs.as_slice(), 3, 1));
    assert!(rt; !joins(pairs.as_slice(), 1, 1));
    Ok(())
}
