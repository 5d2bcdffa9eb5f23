ghost use Rattle.std.specs.Prelude.{◌≡◌};

use crate::{start, sweep_pairs};
use plane::{Pair, Point, Points};
use star::Stars;
use std::alloc::Global;
use std::process::Abort;
use std::test::Fail;
use subdivision::Subdivision;

fn points_of(rt: &impl Abort, alloc: Global, list: &[(i64, i64)]) -> Result<Points, Fail> {
    let mut points = Vec::new(alloc);
    for (x, y) in list {
        points.push(Point { x: *x, y: *y })?;
    }
    assert!(rt; points.len() < 5001);
    Ok(Points::make(points)?)
}

// Whether the sweep meets p before q.
fn is_before(points: &Points, p: u32, q: u32) -> bool {
    p < points.len() && q < points.len() && points.at(p) < points.at(q)
}

// Whether both ends of the second pair come before the later end of the first.
fn comes_before(points: &Points, e: Pair, f: Pair) -> bool {
    let (i, j) = (e.lo(), e.hi());
    let (k, l) = (f.lo(), f.hi());
    (is_before(points, k, i) || is_before(points, k, j))
        && (is_before(points, l, i) || is_before(points, l, j))
}

// The definition of a sweep pair, tried on all pairs.
fn is_sweep_pair(points: &Points, e: Pair) -> bool {
    if e.hi() >= points.len() || !points.is_clear(e) {
        return false;
    }
    for k in 0..points.len() {
        for l in k + 1..points.len() {
            let f = Pair::of(k, l);
            if comes_before(points, e, f) && points.cross(e, f) {
                return false;
            }
        }
    }
    true
}

// All sweep pairs, ascending.
fn plain_sweep_pairs(alloc: Global, points: &Points) -> Result<Vec<Pair>, Fail> {
    let mut pairs = Vec::new(alloc);
    for i in 0..points.len() {
        for j in i + 1..points.len() {
            let e = Pair::of(i, j);
            if is_sweep_pair(points, e) {
                pairs.push(e)?;
            }
        }
    }
    Ok(pairs)
}

// The ends of each segment, the smaller first.
fn ends_of(alloc: Global, pairs: &[Pair]) -> Result<Vec<(u32, u32)>, Fail> {
    let mut ends = Vec::new(alloc);
    for e in pairs {
        ends.push((e.lo(), e.hi()))?;
    }
    Ok(ends)
}

#[test]
fn the_start_has_the_worked_pairs(rt: HostRuntime) -> Result<(), Fail> {
    let cases: [(&[(i64, i64)], &[(u32, u32)]); 5] = [
        (
            &[(0, 0), (0, 4), (4, 0), (4, 4)],
            &[(0, 1), (0, 2), (1, 2), (1, 3), (2, 3)],
        ),
        (
            &[(0, 0), (6, 0), (0, 6), (2, 1)],
            &[(0, 1), (0, 2), (0, 3), (1, 2), (1, 3), (2, 3)],
        ),
        (&[(0, 0), (5, 0), (0, 5)], &[(0, 1), (0, 2), (1, 2)]),
        (
            &[(0, 0), (2, 0), (4, 0), (0, 4)],
            &[(0, 1), (0, 3), (1, 2), (1, 3), (2, 3)],
        ),
        (
            &[(0, 0), (0, 4), (4, 0), (4, 4), (2, 2)],
            &[
                (0, 1),
                (0, 2),
                (0, 4),
                (1, 3),
                (1, 4),
                (2, 3),
                (2, 4),
                (3, 4),
            ],
        ),
    ];
    for (list, want) in &cases {
        let points = points_of(&rt, rt.alloc(), list)?;
        let whole = start(rt.alloc(), &points)?;
        assert_eq!(rt; ends_of(rt.alloc(), &whole.pairs()?)?.as_slice(), *want);
        assert_eq!(rt;
            ends_of(rt.alloc(), &whole.kept_pairs()?)?.as_slice(),
            *want
        );
    }
    Ok(())
}

#[test]
fn exactly_the_sweep_pairs_come_out(rt: HostRuntime) -> Result<(), Fail> {
    let cases: [&[(i64, i64)]; 6] = [
        // A grid of 4 by 4, by rows.
        &[
            (0, 0),
            (1, 0),
            (2, 0),
            (3, 0),
            (0, 1),
            (1, 1),
            (2, 1),
            (3, 1),
            (0, 2),
            (1, 2),
            (2, 2),
            (3, 2),
            (0, 3),
            (1, 3),
            (2, 3),
            (3, 3),
        ],
        // All but one on a line: the odd one last, first and amid, and on a line upward.
        &[(0, 0), (2, 1), (4, 2), (6, 3), (8, 4), (9, 9)],
        &[(5, 0), (6, 1), (0, 7), (7, 2), (8, 3), (9, 4)],
        &[(3, 1), (3, 5), (3, 2), (3, 9), (3, 4), (4, 4), (3, 0)],
        // Points inside the sides of the hull.
        &[
            (0, 0),
            (8, 0),
            (0, 8),
            (8, 8),
            (4, 0),
            (0, 4),
            (8, 4),
            (4, 8),
            (2, 0),
            (4, 4),
            (3, 5),
        ],
        // Points on a parabola, and some inside.
        &[
            (-3, 9),
            (3, 9),
            (-2, 4),
            (2, 4),
            (-1, 1),
            (1, 1),
            (0, 0),
            (0, 5),
            (1, 7),
            (-1, 6),
        ],
    ];
    for list in &cases {
        let points = points_of(&rt, rt.alloc(), list)?;
        let mut pairs = sweep_pairs(rt.alloc(), &points)?;
        pairs.sort()?;
        let plain = plain_sweep_pairs(rt.alloc(), &points)?;
        assert_eq!(rt; pairs.as_slice(), plain.as_slice());
    }
    Ok(())
}

// The apex of p to q, or none where one of them is no point.
fn apex(points: &Points, all: &Subdivision, p: u32, q: u32) -> Option<u32>
    requires { points.now ≡ all.now.points }
{
    if p < points.len() && q < points.len() {
        all.apex(points, p, q)
    } else {
        None
    }
}

// The subdivision taken apart into its stars and made of them again.
fn again(points: &Points, all: Subdivision) -> Subdivision
    requires { points.now ≡ all.points }
{
    let stars = all.into_stars();
    Subdivision::from_stars(points, stars)
}

// The neighbours of a vertex with their marks, in the star's order.
fn round(alloc: Global, all: &Subdivision, v: u32) -> Result<Vec<(u32, bool)>, Fail> {
    let mut list = Vec::new(alloc);
    if let Some(star) = all.star(v) {
        for k in 0..star.degree() {
            list.push(star.at(k))?;
        }
    }
    Ok(list)
}

// The corners of a square and its middle: apexes on either side, and the stars before and after they are taken apart.
#[test]
fn stars_and_apexes_of_a_square(rt: HostRuntime) -> Result<(), Fail> {
    let points = points_of(&rt, rt.alloc(), &[(0, 0), (0, 4), (4, 0), (4, 4), (2, 2)])?;
    let all = start(rt.alloc(), &points)?;
    let rows = [
        (0, 4, Some(1)),
        (4, 0, Some(2)),
        (0, 1, None),
        (1, 0, Some(4)),
        (0, 3, None),
        (0, 9, None),
    ];
    for (p, q, want) in rows {
        assert_eq!(rt; apex(&points, &all, p, q), want, "{p} to {q}");
    }
    let want = [(3, true), (1, true), (0, true), (2, true)];
    let middle = round(rt.alloc(), &all, 4)?;
    assert_eq!(rt; middle.as_slice(), want.as_slice());
    assert!(rt; all.star(5).is_none());
    let pairs = all.pairs()?;
    let same = again(&points, all);
    let middle = round(rt.alloc(), &same, 4)?;
    assert_eq!(rt; middle.as_slice(), want.as_slice());
    let (list, kept) = (same.pairs()?, same.kept_pairs()?);
    let want = ends_of(rt.alloc(), &pairs)?;
    for pairs in [list, kept] {
        let ends = ends_of(rt.alloc(), &pairs)?;
        assert_eq!(rt; ends.as_slice(), want.as_slice());
    }
    Ok(())
}
