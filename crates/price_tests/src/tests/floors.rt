// Floor certificates and their raising on drawn points and costs, against plain slow programs of both.
use super::instances::{drawn_costs, drawn_points};
use super::plain::raise_all_plain;
use dual_prices::{Costs, Row, floor_certificate, raise_all};
use mcp_outside::NoMemory;
use plane::{Pair, Points};
use rand_pcg::Pcg32;
use std::alloc::Global;
use std::process::Abort;
use std::test::Fail;

// The least cost of a clear pair at p.
fn least_cost_plain(points: &Points, costs: &Costs, p: u32) -> u64 {
    let mut least = u64::MAX;
    for r in 0..points.len() {
        if r != p && p < points.len() && points.is_clear(Pair::of(p, r)) {
            least = least.min(u64::from(costs.of(Pair::of(p, r))));
        }
    }
    least
}

// The first point behind q in the list for which p is strictly between the two.
fn opposite_plain(points: &Points, p: u32, q: u32) -> Option<u32> {
    for r in 0..points.len() {
        if q < r && p < points.len() && points.between(p, q, r) {
            return Some(r);
        }
    }
    None
}

// The first two points that p is strictly between.
fn first_pair_plain(points: &Points, p: u32) -> Option<(u32, u32)> {
    for q in 0..points.len() {
        if let Some(r) = opposite_plain(points, p, q) {
            return Some((q, r));
        }
    }
    None
}

// The rows of the floor certificate.
fn floor_plain(alloc: Global, points: &Points, costs: &Costs) -> Result<Vec<Row>, NoMemory> {
    let mut rows = Vec::new(alloc);
    for p in 0..points.len() {
        let w = least_cost_plain(points, costs, p);
        match first_pair_plain(points, p) {
            _ if !points.is_inner(p) => {}
            Some((q, r)) => {
                rows.push(Row::Half { p, q, w })?;
                rows.push(Row::Half { p, q: r, w })?;
            }
            None => rows.push(Row::Three { p, w })?,
        }
    }
    Ok(rows)
}

fn are_same(
    rt: &impl Abort,
    alloc: Global,
    words: &mut Pcg32,
    side: u32,
    count: usize,
) -> Result<(), Fail> {
    let Some(points) = drawn_points(rt, alloc, words, side, count)? else {
        return Ok(());
    };
    let costs = drawn_costs(rt, alloc, words, points.len())?;
    let floor = floor_certificate(alloc, &points, &costs)?;
    let mut rows = floor_plain(alloc, &points, &costs)?;
    assert_eq!(rt; floor.q, 2);
    assert_eq!(rt; floor.rows.as_slice(), rows.as_slice());
    let raised = raise_all(alloc, &points, &costs, floor)?;
    raise_all_plain(&points, &costs, 2, &mut rows);
    assert_eq!(rt; raised.q, 2);
    assert_eq!(rt; raised.rows.as_slice(), rows.as_slice());
    Ok(())
}

#[test]
fn drawn_floors(rt: HostRuntime) -> Result<(), Fail> {
    let mut words = Pcg32::new(11, 1);
    for k in 0..60u32 {
        let count = 4 + k as usize % 9;
        are_same(&rt, rt.alloc(), &mut words, 3 + k % 6, count)?;
    }
    Ok(())
}
