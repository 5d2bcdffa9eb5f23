// The plain slow program: the price rule by the definitions, each load added up from all rows, each clear pair tried.
use dual_prices::Costs;
use mcp_outside::NoMemory;
use plane::{Pair, Points};
use price_defs::{
    Certificate, MOST_ROWS, Row, are_indexed, is_lessened, reweighed, stand_of, weight_of,
};
use rand_core::utils::NextWord;
use rand_pcg::Pcg32;
use std::alloc::Global;

// Whether the row counts the pair of i and j.
fn is_counted_plain(points: &Points, row: Row, i: u32, j: u32) -> bool {
    if !are_indexed(points, [row].as_slice()) || i >= points.len() || j >= points.len() {
        return false;
    }
    match row {
        Row::Half { p, q, w: _ } => {
            p != q && ((i == p && points.in_need(p, q, j)) || (j == p && points.in_need(p, q, i)))
        }
        Row::Three { p, w: _ } => i == p || j == p,
        Row::Cross { e: _, f: _, w: _ } => false,
        Row::Cap { e: _, w: _ } => false,
    }
}

// The load of the pair of i and j.
pub fn load_plain(points: &Points, rows: &[Row], i: u32, j: u32) -> i128 {
    let mut sum = 0i128;
    for row in rows {
        let weight = i128::from(weight_of(*row));
        if is_counted_plain(points, *row, i, j) {
            sum = sum.saturating_add(weight);
        }
        if is_lessened(*row, i, j) {
            sum = sum.saturating_sub(weight);
        }
    }
    sum
}

// What the pair of i and j may still get, or a great number where the row doesn't count it or it isn't clear.
fn room_of_pair(
    points: &Points,
    costs: &Costs,
    certificate: (u64, &[Row]),
    row: Row,
    i: u32,
    j: u32,
) -> i128 {
    let (q, rows) = certificate;
    if i >= j || j >= points.len() || !is_counted_plain(points, row, i, j) {
        return i128::MAX;
    }
    let e = Pair::of(i, j);
    if !points.is_clear(e) {
        return i128::MAX;
    }
    let allowed = i128::from(q).saturating_mul(i128::from(costs.of(e)));
    allowed.saturating_sub(load_plain(points, rows, i, j))
}

// The least room of the row.
fn room_plain(points: &Points, costs: &Costs, certificate: (u64, &[Row]), row: Row) -> i128 {
    let mut least = i128::MAX;
    for i in 0..points.len() {
        for j in 0..points.len() {
            least = least.min(room_of_pair(points, costs, certificate, row, i, j));
        }
    }
    least
}

// Raises the row at k.
fn raise_plain(points: &Points, costs: &Costs, q: u64, rows: &mut Vec<Row>, k: usize) {
    let Some(row) = rows.get(k).copied() else {
        return;
    };
    if stand_of(row).is_none() {
        return;
    }
    let room = room_plain(points, costs, (q, rows.as_slice()), row);
    let more = u64::try_from(room).unwrap_or(0);
    rows[k] = reweighed(row, weight_of(row).saturating_add(more));
}

// Raises all rows.
pub fn raise_all_plain(points: &Points, costs: &Costs, q: u64, rows: &mut Vec<Row>) {
    for k in 0..rows.len() {
        raise_plain(points, costs, q, rows, k);
    }
}

// The value over the border's cost.
pub fn value_plain(q: u64, rows: &[Row]) -> i128 {
    let mut sum = 0i128;
    for row in rows {
        let share = match *row {
            Row::Half { p: _, q: _, w } => i128::from(w),
            Row::Three { p: _, w } => i128::from(w).saturating_mul(3),
            Row::Cross { e: _, f: _, w } => i128::from(w).saturating_neg(),
            Row::Cap { e: _, w } => i128::from(w).saturating_neg(),
        };
        sum = sum.saturating_add(share);
    }
    if q == 0 || sum <= 0 {
        return 0;
    }
    (sum.saturating_sub(1) / i128::from(q)).saturating_add(1)
}

fn is_half_plain(row: Row, p: u32, r: u32) -> bool {
    match row {
        Row::Half { p: u, q, w: _ } => u == p && q == r,
        _ => false,
    }
}

// The trial of p and r.
fn trial_plain(
    alloc: Global,
    points: &Points,
    costs: &Costs,
    q: u64,
    rows: &[Row],
    p: u32,
    r: u32,
) -> Result<Vec<Row>, NoMemory> {
    let mut list = Vec::new(alloc);
    let mut place = None;
    for row in rows {
        if is_half_plain(*row, p, r) && place.is_none() {
            place = Some(list.len());
        }
        let low = if stand_of(*row) == Some(p) {
            reweighed(*row, 0)
        } else {
            *row
        };
        list.push(low)?;
    }
    if place.is_none() && list.len() < MOST_ROWS as usize {
        place = Some(list.len());
        list.push(Row::Half { p, q: r, w: 0 })?;
    }
    if let Some(k) = place {
        raise_plain(points, costs, q, &mut list, k);
    }
    raise_all_plain(points, costs, q, &mut list);
    Ok(list)
}

// The points that pass, ascending.
fn inner_plain(alloc: Global, points: &Points) -> Result<Vec<u32>, NoMemory> {
    let mut list = Vec::new(alloc);
    for p in 0..points.len() {
        if points.is_inner(p) {
            list.push(p)?;
        }
    }
    Ok(list)
}

// The points other than p, ascending.
fn others_plain(alloc: Global, points: &Points, p: u32) -> Result<Vec<u32>, NoMemory> {
    let mut list = Vec::new(alloc);
    for r in 0..points.len() {
        if r != p {
            list.push(r)?;
        }
    }
    Ok(list)
}

// The item of a word, counted round.
fn item_of(list: &[u32], word: u32) -> Option<u32> {
    if list.is_empty() {
        return None;
    }
    list.get(word as usize % list.len()).copied()
}

// The rows times a number.
fn scaled_plain(alloc: Global, rows: &[Row], factor: u64) -> Result<Vec<Row>, NoMemory> {
    let mut list = Vec::new(alloc);
    for row in rows {
        list.push(reweighed(*row, weight_of(*row).saturating_mul(factor)))?;
    }
    Ok(list)
}

// What the rule gives, as a divisor and rows, and how many trials were taken.
pub fn price_plain(
    alloc: Global,
    points: &Points,
    costs: &Costs,
    start: &Certificate,
    rounds: u32,
    seed: u64,
    stream: u64,
) -> Result<(u64, Vec<Row>, u32), NoMemory> {
    let inner = inner_plain(alloc, points)?;
    let rows = start.rows.as_slice();
    if rounds == 0 || inner.is_empty() {
        return Ok((start.q, scaled_plain(alloc, rows, 1)?, 0));
    }
    let has_takers = rows.iter().any(|row| stand_of(*row).is_none());
    let factor = if start.q <= 10_000 && !has_takers {
        60
    } else {
        1
    };
    let q = start.q.saturating_mul(factor);
    let mut present = scaled_plain(alloc, rows, factor)?;
    let mut words = Pcg32::new(seed, stream);
    let mut taken = 0u32;
    for _ in 0..rounds {
        let first = words.next_word();
        let second = words.next_word();
        let Some(p) = item_of(inner.as_slice(), first) else {
            return Ok((q, present, taken));
        };
        let others = others_plain(alloc, points, p)?;
        let Some(r) = item_of(others.as_slice(), second) else {
            return Ok((q, present, taken));
        };
        let trial = trial_plain(alloc, points, costs, q, present.as_slice(), p, r)?;
        if value_plain(q, trial.as_slice()) >= value_plain(q, present.as_slice()) {
            present = trial;
            taken = taken.saturating_add(1);
        }
    }
    Ok((q, present, taken))
}
