// Drawn certificates, right and not, by the check and by a plain one.
use super::instances::{below, drawn_costs, drawn_points, drawn_row};
use super::plain::{load_plain, value_plain};
use cert_check::{CertFault, check_certificate};
use dual_prices::{Certificate, Costs, Row, RowList};
use plane::{Pair, Points};
use price_defs::{MOST_DIVISOR, are_indexed, are_light, are_right};
use rand_core::utils::NextWord;
use rand_pcg::Pcg32;
use std::alloc::Global;
use std::process::Abort;
use std::test::Fail;

// The load of a pair, where it is clear, isn't on the border, and has more than is allowed.
fn excess_plain(
    points: &Points,
    costs: &Costs,
    q: u64,
    rows: &[Row],
    i: u32,
    j: u32,
) -> Option<i64> {
    if i >= j || j >= points.len() {
        return None;
    }
    let e = Pair::of(i, j);
    let load = load_plain(points, rows, i, j);
    let allowed = i128::from(q).saturating_mul(i128::from(costs.of(e)));
    if load > allowed && points.is_clear(e) && !points.is_border(e) {
        i64::try_from(load).ok()
    } else {
        None
    }
}

// The first row that isn't right.
fn bad_row_plain(points: &Points, rows: &[Row]) -> Option<usize> {
    for k in 0..rows.len() {
        if !are_right(points, [rows[k]].as_slice()) {
            return Some(k);
        }
    }
    None
}

// The first pair with too much.
fn overload_plain(points: &Points, costs: &Costs, q: u64, rows: &[Row]) -> Option<CertFault> {
    for i in 0..points.len() {
        for j in i + 1..points.len() {
            if let Some(load) = excess_plain(points, costs, q, rows, i, j) {
                return Some(CertFault::Overload {
                    pair: Pair::of(i, j),
                    load,
                });
            }
        }
    }
    None
}

// The cost of the border pairs.
fn border_plain(points: &Points, costs: &Costs) -> i128 {
    let mut sum = 0i128;
    for i in 0..points.len() {
        for j in i + 1..points.len() {
            let e = Pair::of(i, j);
            if points.is_border(e) {
                sum = sum.saturating_add(i128::from(costs.of(e)));
            }
        }
    }
    sum
}

// What the check is to answer.
fn check_plain(points: &Points, costs: &Costs, q: u64, rows: &[Row]) -> Result<u64, CertFault> {
    if q == 0 {
        return Err(CertFault::ZeroQ);
    }
    if let Some(k) = bad_row_plain(points, rows) {
        return Err(CertFault::BadRow(u32::try_from(k).unwrap_or(u32::MAX)));
    }
    if let Some(fault) = overload_plain(points, costs, q, rows) {
        return Err(fault);
    }
    let value = border_plain(points, costs).saturating_add(value_plain(q, rows));
    Ok(u64::try_from(value).unwrap_or(u64::MAX))
}

// Rows that are drawn: all of them right, but for the last one now and then.
fn drawn_rows(
    alloc: Global,
    words: &mut Pcg32,
    points: &Points,
    many: u32,
) -> Result<Vec<Row>, Fail> {
    let mut rows = Vec::new(alloc);
    for _ in 0..many {
        let row = drawn_row(words, points.len());
        if are_right(points, [row].as_slice()) {
            rows.push(row)?;
        }
    }
    if below(words, 5) == 0 {
        rows.push(drawn_row(words, points.len()))?;
    }
    Ok(rows)
}

// Compares the two on one drawn certificate. Whether it is valid.
fn is_valid_and_same(
    rt: &impl Abort,
    alloc: Global,
    words: &mut Pcg32,
    points: &Points,
    costs: &Costs,
) -> Result<bool, Fail> {
    let many = below(words, 20);
    let rows = drawn_rows(alloc, words, points, many)?;
    let q = u64::from(below(words, 12));
    let wanted = check_plain(points, costs, q, rows.as_slice());
    let certificate = Certificate {
        q,
        rows: RowList::make(rows),
    };
    assert!(rt; certificate.q <= MOST_DIVISOR);
    assert!(rt; certificate.rows.as_slice().len() < 1_000);
    assert!(rt; are_light(certificate.rows.as_slice()));
    assert!(rt; are_indexed(points, certificate.rows.as_slice()));
    let found = check_certificate(alloc, points, costs, &certificate);
    assert_eq!(rt;
        found,
        wanted,
        "of {:?} over {q}",
        certificate.rows.as_slice()
    );
    Ok(found.is_ok())
}

#[test]
fn drawn_certificates(rt: HostRuntime) -> Result<(), Fail> {
    let mut words = Pcg32::new(9, 1);
    let mut valid = 0u32;
    for k in 0..400u32 {
        let count = 3 + k as usize % 9;
        let drawn = drawn_points(&rt, rt.alloc(), &mut words, 3 + k % 6, count)?;
        if let Some(points) = drawn {
            let costs = drawn_costs(&rt, rt.alloc(), &mut words, points.len())?;
            if is_valid_and_same(&rt, rt.alloc(), &mut words, &points, &costs)? {
                valid = valid.saturating_add(1);
            }
        }
    }
    // some are valid and some aren't
    assert!(rt; valid > 20 && valid < 300, "{valid} valid");
    Ok(())
}
