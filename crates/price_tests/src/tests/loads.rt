// Kept loads, loads and values of drawn rows against the plain program.
ghost use Rattle.std.specs.Prelude.{◌≡◌, ◌<◌, length};

use super::instances::{below, drawn_costs, drawn_points, drawn_row};
use super::plain::{load_plain, value_plain};
use dual_prices::{Certificate, Loads, Row, RowList, load, value};
use plane::{Pair, Points};
use price_defs::{MOST_ROWS, MOST_WEIGHT, are_light, are_right, weight_of};
use rand_pcg::Pcg32;
use std::alloc::Global;
use std::process::Abort;
use std::test::Fail;

// Checks the load of each pair of j and a lesser point.
fn are_plain_below(rt: &impl Abort, points: &Points, loads: &Loads, j: u32)
    requires points { points.now ≡ loads.now.points }
    requires within { j < length points.now }
{
    let certificate = loads.certificate();
    let rows = certificate.rows.as_slice();
    for i in 0..j {
        let e = Pair::of(i, j);
        let wanted = load_plain(points, rows, i, j);
        assert_eq!(rt; i128::from(loads.at(e)), wanted, "of {i}-{j} kept");
        assert_eq!(rt;
            i128::from(load(points, certificate, e)),
            wanted,
            "of {i}-{j}"
        );
    }
}

// Checks the loads of all pairs, and the value.
fn are_plain(rt: &impl Abort, points: &Points, loads: &Loads)
    requires { points.now ≡ loads.now.points }
{
    for j in 0..points.len() {
        are_plain_below(rt, points, loads, j);
    }
    let certificate = loads.certificate();
    if certificate.q > 0 {
        let wanted = value_plain(certificate.q, certificate.rows.as_slice());
        assert_eq!(rt; i128::from(value(certificate, 0)), wanted);
    }
}

// Raises, lowers or pushes a row, by the words, where that may be done.
fn change(words: &mut Pcg32, loads: &mut Loads, points: &Points) -> Result<(), Fail>
    requires { points.now ≡ loads.old.points }
    ensures { loads.new.points ≡ loads.old.points }
{
    let rows = loads.certificate().rows.as_slice();
    let k = below(words, 9);
    let by = u64::from(below(words, 5));
    let kind = below(words, 3);
    if kind == 0 || k as usize >= rows.len() {
        return push(words, loads, points);
    }
    let w = weight_of(rows[k as usize]);
    if kind == 1 && w <= MOST_WEIGHT - 5 && by <= 5 {
        loads.raise(points, k, by);
    }
    if kind == 2 && by <= w {
        loads.lower(points, k, by);
    }
    Ok(())
}

// Adds a drawn row, where it is right.
fn push(words: &mut Pcg32, loads: &mut Loads, points: &Points) -> Result<(), Fail>
    requires { points.now ≡ loads.old.points }
    ensures { loads.new.points ≡ loads.old.points }
{
    let count = loads.certificate().rows.as_slice().len();
    let row = drawn_row(words, points.len());
    if count >= MOST_ROWS as usize
        || !are_right(points, [row].as_slice())
        || weight_of(row) > MOST_WEIGHT
    {
        return Ok(());
    }
    match loads.push(points, row) {
        Ok(()) => Ok(()),
        Err(_) => Err(Fail::from("no memory")),
    }
}

// Forty changes of a certificate of one row, each followed by a look at all loads.
fn changed(
    rt: &impl Abort,
    alloc: Global,
    words: &mut Pcg32,
    points: &Points,
    first: Row,
) -> Result<(), Fail> {
    let rows = vec![in alloc; first]?;
    if !are_light(rows.as_slice()) || !are_right(points, rows.as_slice()) {
        return Ok(());
    }
    let certificate = Certificate {
        q: u64::from(below(words, 9)),
        rows: RowList::make(rows),
    };
    let mut loads = match Loads::make(alloc, points, certificate) {
        Ok(loads) => loads,
        Err(_) => return Err(Fail::from("no memory")),
    };
    for step in 0..40u32 {
        change(words, &mut loads, points)?;
        are_plain(rt, points, &loads);
    }
    Ok(())
}

#[test]
fn drawn_changes(rt: HostRuntime) -> Result<(), Fail> {
    let mut words = Pcg32::new(10, 1);
    for k in 0..24u32 {
        let count = 4 + k as usize % 6;
        let drawn = drawn_points(&rt, rt.alloc(), &mut words, 4 + k % 4, count)?;
        if let Some(points) = drawn {
            let first = drawn_row(&mut words, points.len());
            changed(&rt, rt.alloc(), &mut words, &points, first)?;
        }
    }
    Ok(())
}
