use crate::{border, inner_marks};
use plane::{Point, Points};
use std::alloc::Global;
use std::process::Abort;
use std::test::Fail;

fn make(rt: &impl Abort, alloc: Global, list: &[(i64, i64)]) -> Result<Points, Fail> {
    let mut points = Vec::new(alloc);
    for (x, y) in list {
        points.push(Point { x: *x, y: *y })?;
    }
    assert!(rt; points.len() < 5001);
    Ok(Points::make(points)?)
}

// The points of the border from one on, by a walk over all points at each.
fn walked(rt: &impl Abort, alloc: Global, points: &Points, from: u32) -> Result<Vec<u32>, Fail> {
    let mut list = Vec::new(alloc);
    let mut v = from;
    for _ in 0..points.len() {
        assert!(rt; v < points.len());
        list.push(v)?;
        v = points.border_after(v).ok_or("inside")?;
        if v == from {
            return Ok(list);
        }
    }
    Ok(list)
}

// The points in no border pair, by walks over all points for each.
fn inner(alloc: Global, points: &Points) -> Result<Vec<bool>, Fail> {
    let mut list = Vec::new(alloc);
    for v in 0..points.len() {
        list.push(points.is_inner(v))?;
    }
    Ok(list)
}

// The borders of small point sets, found by hand: a square, a square with its centre, a triangle with points inside its
// sides, all points but one on a line, and a grid of three by three.
#[test]
fn borders_of_small_sets(rt: HostRuntime) -> Result<(), Fail> {
    let cases: [(&[(i64, i64)], &[u32]); 5] = [
        (&[(0, 0), (0, 4), (4, 0), (4, 4)], &[0, 2, 3, 1]),
        (&[(0, 0), (0, 4), (4, 0), (4, 4), (2, 2)], &[0, 2, 3, 1]),
        (
            &[(0, 0), (2, 0), (4, 0), (0, 4), (2, 2), (1, 1)],
            &[0, 1, 2, 4, 3],
        ),
        (&[(3, 3), (1, 1), (2, 2), (0, 0), (2, 1)], &[3, 4, 0, 2, 1]),
        (
            &[
                (-1, -1),
                (0, -1),
                (1, -1),
                (-1, 0),
                (0, 0),
                (1, 0),
                (-1, 1),
                (0, 1),
                (1, 1),
            ],
            &[0, 1, 2, 5, 8, 7, 6, 3],
        ),
    ];
    for (list, want) in cases {
        let points = make(&rt, rt.alloc(), list)?;
        let found = border(rt.alloc(), &points)?;
        assert_eq!(rt; found.as_slice(), want, "in {list:?}");
        let marks = inner_marks(rt.alloc(), &points)?;
        let plain = inner(rt.alloc(), &points)?;
        assert_eq!(rt; marks.as_slice(), plain.as_slice(), "in {list:?}");
    }
    Ok(())
}

// Forty points of a grid of nine by nine, so that many are in line: the same as by walks.
#[test]
fn borders_of_grids(rt: HostRuntime) -> Result<(), Fail> {
    for step in 1..8u32 {
        let mut points = Vec::new(rt.alloc());
        for k in 0..40u32 {
            let place = (k * 37 + step * 5) % 81;
            points.push(Point {
                x: i64::from(place % 9),
                y: i64::from(place / 9),
            })?;
        }
        assert!(rt; points.len() < 5001);
        let points = Points::make(points)?;
        let found = border(rt.alloc(), &points)?;
        let first = *found.first().ok_or("no border")?;
        let plain = walked(&rt, rt.alloc(), &points, first)?;
        assert_eq!(rt; found.as_slice(), plain.as_slice(), "with step {step}");
        let marks = inner_marks(rt.alloc(), &points)?;
        let plain = inner(rt.alloc(), &points)?;
        assert_eq!(rt; marks.as_slice(), plain.as_slice(), "with step {step}");
    }
    Ok(())
}
