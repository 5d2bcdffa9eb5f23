// Certificates of small point sets, added up by hand, and kept loads against loads from scratch.
ghost use Rattle.std.specs.Prelude.{◌≡◌, ◌<◌, length, IfOk};

use crate::{Certificate, Costs, Loads, Row, RowList, floor_certificate, load, raise_all, value};
use cost_defs::are_costs;
use plane::{Pair, Point, Points};
use price_defs::{MOST_ROWS, MOST_WEIGHT, are_light, are_right, weight_of};
use std::alloc::Global;
use std::process::Abort;
use std::test::Fail;

// The corners of a square and its centre, which is between two pairs of them.
const SQUARE: [(i64, i64); 5] = [(0, 0), (0, 4), (4, 0), (4, 4), (2, 2)];
// A triangle with a point inside that is between no two others.
const TRIANGLE: [(i64, i64); 4] = [(0, 0), (6, 0), (0, 6), (2, 1)];

fn points_of(rt: &impl Abort, alloc: Global, list: &[(i64, i64)]) -> Result<Points, Fail> {
    let mut points = Vec::new(alloc);
    for (x, y) in list {
        points.push(Point { x: *x, y: *y })?;
    }
    assert!(rt; points.len() < 5001);
    Ok(Points::make(points)?)
}

fn costs_of(rt: &impl Abort, alloc: Global, items: &[(u32, u32, u32)]) -> Result<Costs, Fail> {
    let mut list = Vec::new(alloc);
    for (i, j, c) in items {
        assert!(rt; *i != *j);
        list.push((Pair::of(*i, *j), *c))?;
    }
    assert!(rt; are_costs(list.as_slice()));
    Ok(Costs::make(list))
}

const fn half(p: u32, q: u32, w: u64) -> Row {
    Row::Half { p, q, w }
}

// The floor certificate of the points, then the raised one, with their values.
fn are_floor_and_raised(
    rt: &impl Abort,
    alloc: Global,
    points: &Points,
    costs: &Costs,
    base: u64,
    wanted: (&[Row], u64, &[Row], u64),
) -> Result<(), Fail> {
    assert!(rt; base < 1_000_000);
    let floor = floor_certificate(alloc, points, costs)?;
    assert_eq!(rt; floor.rows.as_slice(), wanted.0);
    assert_eq!(rt; value(&floor, base), wanted.1);
    let raised = raise_all(alloc, points, costs, floor)?;
    assert_eq!(rt; raised.q, 2);
    assert_eq!(rt; raised.rows.as_slice(), wanted.2);
    assert_eq!(rt; value(&raised, base), wanted.3);
    Ok(())
}

#[test]
fn floor_and_raised_certificates(rt: HostRuntime) -> Result<(), Fail> {
    let alloc = rt.alloc();
    let triangle = points_of(&rt, alloc, &TRIANGLE)?;
    let low = [Row::Three { p: 3, w: 1 }];
    let high = [Row::Three { p: 3, w: 2 }];
    are_floor_and_raised(
        &rt,
        alloc,
        &triangle,
        &Costs::unit(),
        3,
        (&low, 5, &high, 6),
    )?;
    let square = points_of(&rt, alloc, &SQUARE)?;
    let low = [half(4, 0, 1), half(4, 3, 1)];
    let high = [half(4, 0, 2), half(4, 3, 2)];
    let nothing = [half(4, 0, 0), half(4, 3, 0)];
    are_floor_and_raised(&rt, alloc, &square, &Costs::unit(), 4, (&low, 5, &high, 6))?;
    // One dear pair is left out of account, and pairs that cost nothing leave the border alone.
    let dear = costs_of(&rt, alloc, &[(1, 4, 3)])?;
    are_floor_and_raised(&rt, alloc, &square, &dear, 4, (&low, 5, &high, 6))?;
    let free = costs_of(&rt, alloc, &[(0, 4, 0), (1, 4, 0), (2, 4, 0), (3, 4, 0)])?;
    are_floor_and_raised(&rt, alloc, &square, &free, 4, (&nothing, 4, &nothing, 4))?;
    Ok(())
}

// Loads of a certificate whose rows are right and light.
fn loads_of(alloc: Global, points: &Points, rows: &[Row]) -> Result<Loads, Fail>
    ensures { IfOk result (λ a. a.points ≡ points.now) }
{
    if rows.len() > MOST_ROWS as usize || !are_light(rows) || !are_right(points, rows) {
        return Err(Fail::from("rows that can't be counted"));
    }
    let certificate = Certificate {
        q: 2,
        rows: RowList::make(rows.to_vec(alloc)?),
    };
    match Loads::make(alloc, points, certificate) {
        Ok(loads) => Ok(loads),
        Err(_) => Err(Fail::from("no memory")),
    }
}

// Whether the kept loads of the pairs below j are those from scratch.
fn are_from_scratch_below(rt: &impl Abort, points: &Points, loads: &Loads, j: u32)
    requires points { points.now ≡ loads.now.points }
    requires within { j < length points.now }
{
    let certificate = loads.certificate();
    for i in 0..j {
        let e = Pair::of(i, j);
        assert_eq!(rt; loads.at(e), load(points, certificate, e), "of {i}-{j}");
    }
}

// Whether all kept loads are those from scratch.
fn are_from_scratch(rt: &impl Abort, points: &Points, loads: &Loads)
    requires { points.now ≡ loads.now.points }
{
    for j in 0..points.len() {
        are_from_scratch_below(rt, points, loads, j);
    }
}

// Raises the weight of a row, where it is there and stays within the limit.
fn raise(loads: &mut Loads, points: &Points, k: u32, more: u64) -> bool
    requires { points.now ≡ loads.old.points }
    ensures { loads.new.points ≡ loads.old.points }
{
    let rows = loads.certificate().rows.as_slice();
    if k as usize >= rows.len()
        || more > MOST_WEIGHT
        || weight_of(rows[k as usize]) > MOST_WEIGHT - more
    {
        return false;
    }
    loads.raise(points, k, more);
    true
}

// Lowers the weight of a row, where it is there and has so much.
fn lower(loads: &mut Loads, points: &Points, k: u32, less: u64) -> bool
    requires { points.now ≡ loads.old.points }
    ensures { loads.new.points ≡ loads.old.points }
{
    let rows = loads.certificate().rows.as_slice();
    if k as usize >= rows.len() || weight_of(rows[k as usize]) < less {
        return false;
    }
    loads.lower(points, k, less);
    true
}

// Adds a row, where it is right and there is room.
fn push(loads: &mut Loads, points: &Points, row: Row) -> bool
    requires { points.now ≡ loads.old.points }
    ensures { loads.new.points ≡ loads.old.points }
{
    let count = loads.certificate().rows.as_slice().len();
    if count >= MOST_ROWS as usize
        || !are_right(points, [row].as_slice())
        || weight_of(row) > MOST_WEIGHT
    {
        return false;
    }
    loads.push(points, row).is_ok()
}

#[test]
fn kept_loads_of_five_points(rt: HostRuntime) -> Result<(), Fail> {
    let points = points_of(&rt, rt.alloc(), &SQUARE)?;
    assert!(rt; points.len() > 4);
    let mut loads = loads_of(rt.alloc(), &points, &[half(4, 0, 1), half(4, 3, 1)])?;
    are_from_scratch(&rt, &points, &loads);
    assert_eq!(rt; loads.at(Pair::of(0, 4)), 1);
    assert_eq!(rt; loads.at(Pair::of(2, 4)), 1);
    assert_eq!(rt; loads.at(Pair::of(0, 1)), 0);
    assert!(rt; raise(&mut loads, &points, 0, 1));
    are_from_scratch(&rt, &points, &loads);
    assert_eq!(rt; loads.at(Pair::of(2, 4)), 2);
    assert_eq!(rt; loads.at(Pair::of(3, 4)), 2);
    assert_eq!(rt; loads.at(Pair::of(0, 4)), 1);
    assert!(rt; lower(&mut loads, &points, 0, 2));
    assert_eq!(rt; loads.at(Pair::of(2, 4)), 0);
    let cap = Row::Cap {
        e: Pair::of(0, 4),
        w: 1,
    };
    assert!(rt; push(&mut loads, &points, cap));
    assert_eq!(rt; loads.at(Pair::of(0, 4)), 0);
    are_from_scratch(&rt, &points, &loads);
    let cross = Row::Cross {
        e: Pair::of(0, 3),
        f: Pair::of(1, 2),
        w: 5,
    };
    assert!(rt; push(&mut loads, &points, cross));
    assert!(rt; raise(&mut loads, &points, 3, 4));
    are_from_scratch(&rt, &points, &loads);
    assert_eq!(rt; loads.at(Pair::of(1, 2)), -9);
    let certificate = loads.into_certificate();
    assert_eq!(rt; certificate.rows.as_slice().len(), 4);
    Ok(())
}
