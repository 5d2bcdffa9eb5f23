ghost use Rattle.std.specs.Prelude.{◌≡◌, length, IfOk};

use crate::{BadPoints, MOST_POINTS, Pair, PairList, Point, Points, Turn, turn_at};
use std::alloc::Global;
use std::process::Abort;
use std::test::Fail;

fn list_of(alloc: Global, list: &[(i64, i64)]) -> Result<Vec<Point>, Fail> {
    let mut points = Vec::new(alloc);
    for (x, y) in list {
        points.push(Point { x: *x, y: *y })?;
    }
    Ok(points)
}

fn make(rt: &impl Abort, alloc: Global, list: &[(i64, i64)]) -> Result<Points, Fail>
    ensures { IfOk result (λ points. length points ≡ length list.now) }
{
    let made = list_of(alloc, list)?;
    assert_eq!(rt; made.len(), list.len());
    assert!(rt; list.len() <= MOST_POINTS);
    Ok(Points::make(made)?)
}

#[test]
fn faults_come_in_their_order(rt: HostRuntime) -> Result<(), Fail> {
    let far = 2_305_843_009_213_693_952;
    // Each list, and its first fault by hand from the definition.
    let cases: [(&[(i64, i64)], Option<BadPoints>); 10] = [
        (&[(0, 0), (far, 0)], Some(BadPoints::TooFew(2))),
        (&[(0, 0), (far, 0), (0, 0)], Some(BadPoints::TooFar(1))),
        (&[(0, 0), (1, 1), (0, -far)], Some(BadPoints::TooFar(2))),
        (&[(0, 0), (1, 1), (0, 0)], Some(BadPoints::SamePlace(0, 2))),
        (
            &[(2, 2), (1, 1), (3, 3), (1, 1), (2, 2)],
            Some(BadPoints::SamePlace(0, 4)),
        ),
        (
            &[(0, 0), (1, 1), (2, 2), (3, 3), (4, 4)],
            Some(BadPoints::OneLine),
        ),
        (&[(5, 0), (5, 1), (5, -7)], Some(BadPoints::OneLine)),
        (
            &[(1 - far, 1 - far), (far - 1, 1 - far), (1 - far, far - 1)],
            None,
        ),
        (
            &[(1 - far, 1 - far), (far - 1, 1 - far), (1 - far, far)],
            Some(BadPoints::TooFar(2)),
        ),
        (&[(0, 0), (1, 1), (2, 2), (3, 4)], None),
    ];
    for (list, fault) in cases {
        let made = list_of(rt.alloc(), list)?;
        assert!(rt; made.len() < 10);
        assert_eq!(rt; Points::make(made).err(), fault, "in {list:?}");
    }
    let mut many = Vec::new(rt.alloc());
    for k in 0..5001i64 {
        many.push(Point { x: k, y: k % 7 })?;
    }
    assert!(rt; many.len() < 5002);
    assert_eq!(rt; Points::make(many).err(), Some(BadPoints::TooMany(5001)));
    Ok(())
}

// A square with its centre: 0 (0,0), 1 (0,4), 2 (4,0), 3 (4,4), 4 (2,2).
#[test]
fn the_square_with_its_centre(rt: HostRuntime) -> Result<(), Fail> {
    let points = make(&rt, rt.alloc(), &[(0, 0), (0, 4), (4, 0), (4, 4), (2, 2)])?;
    assert_eq!(rt; points.len(), 5);
    assert_eq!(rt; points.at(3), Point { x: 4, y: 4 });
    let turns = [
        points.orient(0, 2, 1),
        points.orient(0, 1, 2),
        points.orient(0, 4, 3),
    ];
    assert_eq!(rt; turns, [Turn::Left, Turn::Right, Turn::Straight]);
    assert_eq!(rt;
        turn_at(points.at(0), points.at(2), points.at(1)),
        Turn::Left
    );
    let between = [
        points.between(4, 0, 3),
        points.between(0, 4, 3),
        points.between(4, 0, 1),
    ];
    assert_eq!(rt; between, [true, false, false]);
    let across = [
        points.cross(Pair::of(3, 0), Pair::of(1, 2)),
        points.cross(Pair::of(0, 1), Pair::of(2, 3)),
        points.cross(Pair::of(0, 4), Pair::of(1, 2)),
        points.cross(Pair::of(0, 3), Pair::of(0, 1)),
    ];
    assert_eq!(rt; across, [true, false, false, false]);
    assert_eq!(rt; points.first_between(Pair::of(0, 3)), Some(4));
    assert_eq!(rt; points.first_between(Pair::of(0, 4)), None);
    let clear = [
        points.is_clear(Pair::of(1, 2)),
        points.is_clear(Pair::of(1, 3)),
    ];
    assert_eq!(rt; clear, [false, true]);
    let border = [
        points.is_border(Pair::of(0, 1)),
        points.is_border(Pair::of(0, 3)),
        points.is_border(Pair::of(0, 4)),
    ];
    assert_eq!(rt; border, [true, false, false]);
    // The need of the centre for the corner 0 has the corner 1 on its left, and the corner 3 opposite.
    let needs = [
        points.in_need(4, 0, 2),
        points.in_need(4, 0, 1),
        points.in_need(4, 0, 3),
        points.in_need(4, 0, 0),
    ];
    assert_eq!(rt; needs, [true, false, true, false]);
    let inner = [points.is_inner(0), points.is_inner(1), points.is_inner(4)];
    assert_eq!(rt; inner, [false, false, true]);
    let steps = [
        points.border_after(0),
        points.border_before(0),
        points.border_after(4),
    ];
    assert_eq!(rt; steps, [Some(2), Some(1), None]);
    Ok(())
}

// The four corners of the whole range, and points one step beside its diagonal: an area there has 124 bits.
#[test]
fn tests_are_exact_at_the_widest_coordinates(rt: HostRuntime) -> Result<(), Fail> {
    let most = 2_305_843_009_213_693_951;
    let list = [
        (-most, -most),
        (most, -most),
        (most, most),
        (-most, most),
        (0, 0),
        (0, 1),
        (1, 0),
    ];
    let points = make(&rt, rt.alloc(), &list)?;
    assert_eq!(rt; points.len(), 7);
    let turns = [
        points.orient(0, 2, 5),
        points.orient(0, 2, 4),
        points.orient(0, 2, 6),
        points.orient(0, 1, 3),
    ];
    assert_eq!(rt;
        turns,
        [Turn::Left, Turn::Straight, Turn::Right, Turn::Left]
    );
    let left = [
        points.is_left(0, 2, 5),
        points.is_left(0, 2, 4),
        points.is_left(0, 2, 6),
    ];
    assert_eq!(rt; left, [true, false, false]);
    let between = [
        points.between(4, 0, 2),
        points.between(5, 0, 2),
        points.between(4, 1, 3),
    ];
    assert_eq!(rt; between, [true, false, true]);
    let across = [
        points.cross(Pair::of(0, 2), Pair::of(1, 3)),
        points.cross(Pair::of(0, 2), Pair::of(5, 6)),
        points.cross(Pair::of(0, 2), Pair::of(1, 6)),
    ];
    assert_eq!(rt; across, [true, true, false]);
    assert_eq!(rt; points.first_between(Pair::of(0, 2)), Some(4));
    assert!(rt; points.is_border(Pair::of(0, 1)) && !points.is_border(Pair::of(0, 2)));
    let needs = [points.in_need(4, 0, 2), points.in_need(4, 0, 5)];
    assert_eq!(rt; needs, [true, false]);
    let steps = [points.border_after(3), points.border_after(4)];
    assert_eq!(rt; steps, [Some(0), None]);
    Ok(())
}

// A 4 by 4 grid, row by row. Its sides have points inside them.
const GRID: [(i64, i64); 16] = [
    (0, 0),
    (1, 0),
    (2, 0),
    (3, 0),
    (0, 1),
    (1, 1),
    (2, 1),
    (3, 1),
    (0, 2),
    (1, 2),
    (2, 2),
    (3, 2),
    (0, 3),
    (1, 3),
    (2, 3),
    (3, 3),
];

#[test]
fn a_grid_with_points_inside_its_sides(rt: HostRuntime) -> Result<(), Fail> {
    let points = make(&rt, rt.alloc(), &GRID)?;
    let around = [
        (0u32, 1u32),
        (1, 2),
        (2, 3),
        (3, 7),
        (7, 11),
        (11, 15),
        (15, 14),
        (14, 13),
        (13, 12),
        (12, 8),
        (8, 4),
        (4, 0),
    ];
    for (v, w) in around {
        assert!(rt; v < points.len() && w < points.len() && v != w);
        assert_eq!(rt; points.border_after(v), Some(w), "after {v}");
        assert_eq!(rt; points.border_before(w), Some(v), "before {w}");
        assert!(rt;
            points.is_border(Pair::of(v, w)) && !points.is_inner(v),
            "{v} {w}"
        );
    }
    for v in [5u32, 6, 9, 10] {
        assert!(rt; v < points.len());
        assert!(rt; points.is_inner(v), "{v}");
    }
    Ok(())
}

#[test]
fn pairs_keep_the_smaller_index_first(rt: HostRuntime) -> Result<(), Fail> {
    let mut list = Vec::new(rt.alloc());
    list.push(Pair::of(7, 2))?;
    list.push(Pair::of(2, 7))?;
    let list = PairList::make(list);
    for pair in list.as_slice() {
        assert_eq!(rt; (pair.lo(), pair.hi()), (2, 7));
    }
    assert!(rt; Pair::of(1, 9) < Pair::of(2, 3) && Pair::of(2, 3) < Pair::of(2, 4));
    Ok(())
}
