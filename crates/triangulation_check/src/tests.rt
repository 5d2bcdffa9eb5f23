use crate::is_triangulation;
use partition_defs::{are_clear, are_plane, are_within, has_border, joins};
use plane::{Pair, Point, Points};
use std::alloc::Global;
use std::process::Abort;
use std::test::Fail;

fn points_of(rt: &impl Abort, alloc: Global, list: &[(i64, i64)]) -> Result<Points, Fail> {
    let mut points = Vec::new(alloc);
    for (x, y) in list {
        points.push(Point { x: *x, y: *y })?;
    }
    assert!(rt; points.len() < 5001);
    Ok(Points::make(points)?)
}

fn pairs_of(rt: &impl Abort, alloc: Global, list: &[(u32, u32)]) -> Result<Vec<Pair>, Fail> {
    let mut pairs = Vec::new(alloc);
    for (i, j) in list {
        assert!(rt; *i != *j);
        pairs.push(Pair::of(*i, *j))?;
    }
    Ok(pairs)
}

// Whether the pairs are a triangulation, or none where an end is no point.
fn answer(points: &Points, list: &[Pair]) -> Option<bool> {
    if list.len() > 100_000 || !are_within(points, list) {
        return None;
    }
    Some(is_triangulation(points, list))
}

// Whether the closed triangle has no further point.
fn is_empty(points: &Points, p: u32, q: u32, r: u32) -> bool {
    let count = points.len();
    if p >= count || q >= count || r >= count {
        return false;
    }
    for s in 0..count {
        let outside = points.is_left(q, p, s) || points.is_left(r, q, s) || points.is_left(p, r, s);
        if s != p && s != q && s != r && !outside {
            return false;
        }
    }
    true
}

// Whether p to q has an apex, or needs none.
fn has_apex(points: &Points, list: &[Pair], p: u32, q: u32) -> bool {
    let mut some_left = false;
    for r in 0..points.len() {
        if p < points.len() && q < points.len() && points.is_left(p, q, r) {
            some_left = true;
            if joins(list, p, r) && joins(list, q, r) && is_empty(points, p, q, r) {
                return true;
            }
        }
    }
    !some_left
}

// The definition of a triangulation, tried point by point and pair by pair.
fn plain(points: &Points, list: &[Pair]) -> Option<bool> {
    if !are_within(points, list) {
        return None;
    }
    if !are_clear(points, list) || !are_plane(points, list) || !has_border(points, list) {
        return Some(false);
    }
    for p in 0..points.len() {
        if !list.iter().any(|e| e.lo() == p || e.hi() == p) {
            return Some(false);
        }
    }
    for e in list {
        if !has_apex(points, list, e.lo(), e.hi()) || !has_apex(points, list, e.hi(), e.lo()) {
            return Some(false);
        }
    }
    Some(true)
}

// The corners of a square, then its centre where it is asked for.
const SQUARE: [(i64, i64); 4] = [(0, 0), (0, 4), (4, 0), (4, 4)];

const CENTRED: [(i64, i64); 5] = [(0, 0), (0, 4), (4, 0), (4, 4), (2, 2)];
// A triangle with a point inside its lower side, and one inside the triangle.
const SIDED: [(i64, i64); 5] = [(0, 0), (2, 0), (4, 0), (0, 4), (1, 1)];
// A triangle with a point inside it, nearer to one side.
const PIERCED: [(i64, i64); 4] = [(0, 0), (6, 0), (0, 6), (2, 1)];

const PENTAGON: [(i64, i64); 5] = [(0, 2), (2, 0), (5, 1), (5, 4), (2, 5)];

#[test]
fn worked_lists(rt: HostRuntime) -> Result<(), Fail> {
    // Each list of points and of pairs, and by hand from the definition whether it is a triangulation.
    let cases: [(&[(i64, i64)], &[(u32, u32)], bool); 12] = [
        (&SQUARE, &[(0, 1), (0, 2), (1, 2), (1, 3), (2, 3)], true),
        // the same, the other way round and in another order
        (&SQUARE, &[(3, 2), (3, 1), (2, 1), (2, 0), (1, 0)], true),
        (&SQUARE, &[(0, 1), (0, 2), (0, 3), (1, 3), (2, 3)], true),
        // no diagonal, both diagonals, a side missing, a pair twice
        (&SQUARE, &[(0, 1), (0, 2), (1, 3), (2, 3)], false),
        (
            &SQUARE,
            &[(0, 1), (0, 2), (0, 3), (1, 2), (1, 3), (2, 3)],
            false,
        ),
        (&SQUARE, &[(0, 1), (0, 2), (1, 2), (1, 3)], false),
        (
            &SQUARE,
            &[(0, 1), (0, 2), (1, 2), (1, 3), (2, 3), (2, 1)],
            false,
        ),
        (&SQUARE, &[], false),
        // a convex partition with a straight angle at the centre
        (
            &CENTRED,
            &[(0, 1), (0, 2), (1, 3), (2, 3), (0, 4), (3, 4)],
            false,
        ),
        // the point in the triangle stands alone, then with all its pairs
        (&PIERCED, &[(0, 1), (0, 2), (1, 2)], false),
        (
            &PIERCED,
            &[(0, 1), (0, 2), (1, 2), (0, 3), (1, 3), (2, 3)],
            true,
        ),
        // three points in line on a side
        (
            &SIDED,
            &[
                (0, 1),
                (1, 2),
                (2, 3),
                (0, 3),
                (0, 4),
                (1, 4),
                (2, 4),
                (3, 4),
            ],
            true,
        ),
    ];
    for (points, pairs, wanted) in cases.iter() {
        let points = points_of(&rt, rt.alloc(), points)?;
        let pairs = pairs_of(&rt, rt.alloc(), pairs)?;
        assert_eq!(rt; answer(&points, &pairs), Some(*wanted));
    }
    Ok(())
}

#[test]
fn all_lists_of_five_points_are_as_the_plain_program_says(rt: HostRuntime) -> Result<(), Fail> {
    let ends: [(u32, u32); 10] = [
        (0, 1),
        (0, 2),
        (0, 3),
        (0, 4),
        (1, 2),
        (1, 3),
        (1, 4),
        (2, 3),
        (2, 4),
        (3, 4),
    ];
    // How many triangulations the points have, by hand: the centre of a square is on both diagonals, in the triangle one
    // segment can be flipped, and a pentagon has five.
    let cases: [(&[(i64, i64)], u32); 3] = [(&CENTRED, 1), (&SIDED, 2), (&PENTAGON, 5)];
    for (list, wanted) in cases.iter() {
        let points = points_of(&rt, rt.alloc(), list)?;
        let mut found = 0u32;
        for set in 0u32..1024 {
            let mut pairs = Vec::new(rt.alloc());
            for k in 0u32..10 {
                if (set >> k) & 1 == 1 {
                    let (i, j) = ends[k as usize];
                    assert!(rt; i != j);
                    pairs.push(Pair::of(i, j))?;
                }
            }
            let told = answer(&points, &pairs);
            assert_eq!(rt; told, plain(&points, &pairs));
            if told == Some(true) {
                found = found.saturating_add(1);
            }
        }
        assert_eq!(rt; found, *wanted);
    }
    Ok(())
}
