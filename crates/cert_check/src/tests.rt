// The check on certificates of five points that were added up by hand.
use crate::{CertFault, check_certificate};
use cost_defs::{Costs, are_costs};
use plane::{Pair, Point, Points};
use price_defs::{Certificate, MOST_DIVISOR, Row, RowList, are_indexed, are_light};
use std::alloc::Global;
use std::process::Abort;
use std::test::Fail;

// The corners of a square and its centre, which is between two pairs of them.
const SQUARE: [(i64, i64); 5] = [(0, 0), (0, 4), (4, 0), (4, 4), (2, 2)];
// A triangle with a point inside that is between no two others.
const TRIANGLE: [(i64, i64); 4] = [(0, 0), (6, 0), (0, 6), (2, 1)];

fn points_of(rt: &impl Abort, alloc: Global, list: &[(i64, i64)]) -> Result<Points, Fail> {
    let mut points = Vec::new(alloc);
    for (x, y) in list {
        points.push(Point { x: *x, y: *y })?;
    }
    assert!(rt; points.len() < 5001);
    Ok(Points::make(points)?)
}

fn costs_of(rt: &impl Abort, alloc: Global, items: &[(u32, u32, u32)]) -> Result<Costs, Fail> {
    let mut list = Vec::new(alloc);
    for (i, j, c) in items {
        assert!(rt; *i != *j);
        list.push((Pair::of(*i, *j), *c))?;
    }
    assert!(rt; are_costs(list.as_slice()));
    Ok(Costs::make(list))
}

const fn half(p: u32, q: u32, w: u64) -> Row {
    Row::Half { p, q, w }
}

const fn three(p: u32, w: u64) -> Row {
    Row::Three { p, w }
}

fn cap(w: u64) -> Row {
    Row::Cap {
        e: Pair::of(0, 4),
        w,
    }
}

// What the check answers of these rows.
fn answer(
    rt: &impl Abort,
    alloc: Global,
    points: &Points,
    costs: &Costs,
    q: u64,
    rows: &[Row],
) -> Result<Result<u64, CertFault>, Fail> {
    let certificate = Certificate {
        q,
        rows: RowList::make(rows.to_vec(alloc)?),
    };
    assert!(rt; certificate.q <= MOST_DIVISOR);
    assert!(rt; certificate.rows.as_slice().len() < 1_000);
    assert!(rt; are_light(certificate.rows.as_slice()));
    assert!(rt; are_indexed(points, certificate.rows.as_slice()));
    Ok(check_certificate(alloc, points, costs, &certificate))
}

#[test]
fn certificates_of_the_square(rt: HostRuntime) -> Result<(), Fail> {
    let points = points_of(&rt, rt.alloc(), &SQUARE)?;
    let over = |i: u32, load: i64| {
        Err(CertFault::Overload {
            pair: Pair::of(i, 4),
            load,
        })
    };
    // The divisor, the rows, and the answer.
    let cases: [(u64, &[Row], Result<u64, CertFault>); 10] = [
        (2, &[half(4, 0, 1), half(4, 3, 1)], Ok(5)),
        (2, &[half(4, 0, 2), half(4, 3, 2)], Ok(6)),
        (2, &[], Ok(4)),
        (0, &[half(4, 0, 2)], Err(CertFault::ZeroQ)),
        (
            2,
            &[half(4, 0, 2), half(4, 3, 2), three(4, 1)],
            Err(CertFault::BadRow(2)),
        ),
        (2, &[half(4, 4, 0)], Err(CertFault::BadRow(0))),
        (2, &[half(4, 0, 3), half(4, 3, 2)], over(2, 3)),
        (2, &[half(4, 0, 3), half(4, 3, 3)], over(0, 3)),
        (2, &[half(4, 3, 3), cap(1)], over(1, 3)),
        (2, &[half(4, 0, 2), cap(3)], Ok(4)),
    ];
    for (q, rows, wanted) in cases {
        let found = answer(&rt, rt.alloc(), &points, &Costs::unit(), q, rows)?;
        assert_eq!(rt; found, wanted, "of {rows:?}");
    }
    Ok(())
}

#[test]
fn costs_bound_the_loads(rt: HostRuntime) -> Result<(), Fail> {
    let points = points_of(&rt, rt.alloc(), &SQUARE)?;
    let rows = [half(4, 0, 2), half(4, 3, 2)];
    let dear = costs_of(&rt, rt.alloc(), &[(0, 1, 7), (1, 4, 3)])?;
    assert_eq!(rt; answer(&rt, rt.alloc(), &points, &dear, 2, &rows)?, Ok(12));
    let free = costs_of(&rt, rt.alloc(), &[(3, 4, 0)])?;
    let over = CertFault::Overload {
        pair: Pair::of(3, 4),
        load: 2,
    };
    assert_eq!(rt;
        answer(&rt, rt.alloc(), &points, &free, 2, &rows)?,
        Err(over)
    );
    Ok(())
}

#[test]
fn certificates_of_the_triangle(rt: HostRuntime) -> Result<(), Fail> {
    let points = points_of(&rt, rt.alloc(), &TRIANGLE)?;
    let unit = Costs::unit();
    assert_eq!(rt;
        answer(&rt, rt.alloc(), &points, &unit, 2, &[three(3, 1)])?,
        Ok(5)
    );
    assert_eq!(rt;
        answer(&rt, rt.alloc(), &points, &unit, 2, &[three(3, 2)])?,
        Ok(6)
    );
    assert_eq!(rt;
        answer(&rt, rt.alloc(), &points, &unit, 2, &[three(0, 2)])?,
        Err(CertFault::BadRow(0))
    );
    Ok(())
}
