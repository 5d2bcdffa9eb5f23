// Lists of rows: lowered at a point, with a Half row more, and times a number.
ghost use Rattle.std.specs.Prelude.{◌≡◌, ◌<◌, ◌≤◌, ◌*◌, cond, length, IfOk, OnOk};
ghost use Rattle.std.specs.List.{list_any};
ghost use Rattle.price_defs.specs.Limits.{AreLight};
ghost use Rattle.price_defs.specs.Rows.{weight, is_at};
ghost use Rattle.price_defs.specs.Raising.{reweigh};
ghost use Rattle.bound_worker.specs.Places.{IsPlace, IsOpened};
ghost use Rattle.search_defs.specs.Priced.{is_half, is_taker, lowered, opened, factor, scaled};

use mcp_outside::NoMemory;
use price_defs::{MOST_ROWS, Row, reweighed, stand_of, weight_of};
use std::alloc::{AllocError, Global};

// Whether a row is Half(p,r).
fn is_half_row(row: Row, p: u32, r: u32) -> bool
    ensures { result ≡ is_half p r row }
{
    match row {
        Row::Half { p: u, q, w: _ } => u == p && q == r,
        Row::Three { p: _, w: _ } => false,
        Row::Cross { e: _, f: _, w: _ } => false,
        Row::Cap { e: _, w: _ } => false,
    }
}

// Whether a row is a Cross or Cap row.
fn is_taker_row(row: Row) -> bool
    ensures { result ≡ is_taker row }
{
    match row {
        Row::Half { p: _, q: _, w: _ } => false,
        Row::Three { p: _, w: _ } => false,
        Row::Cross { e: _, f: _, w: _ } => true,
        Row::Cap { e: _, w: _ } => true,
    }
}

// The row without its weight, where it stands at p.
fn lowered_row(row: Row, p: u32) -> Row
    ensures { result ≡ cond (is_at p row) (reweigh row 0) row }
{
    if stand_of(row) == Some(p) {
        reweighed(row, 0)
    } else {
        row
    }
}

// The rows, those at p without their weight.
pub fn lowered_rows(alloc: Global, rows: &[Row], p: u32) -> Result<Vec<Row>, AllocError>
    ensures { IfOk result (λ v. v.items ≡ lowered p rows.now) }
{
    rows.iter().map(|row| lowered_row(*row, p)).collect(alloc)
}

// The position of the first row Half(p,r).
pub fn place_of(rows: &[Row], p: u32, r: u32) -> Option<usize>
    ensures { IsPlace p r rows.now result }
{
    for k in 0..rows.len() {
        if is_half_row(rows[k], p, r) {
            return Some(k);
        }
    }
    None
}

// Puts Half(p,r) at the end, where it isn't there and has room, and notes an end for it.
pub fn open_row(rows: &mut Vec<Row>, ends: &mut Vec<u32>, p: u32, r: u32) -> Result<(), NoMemory>
    ensures { OnOk result (IsOpened p r rows.old.items ends.old.items rows.new.items ends.new.items) }
{
    if place_of(rows.as_slice(), p, r).is_none() && rows.len() < MOST_ROWS as usize {
        rows.push(Row::Half { p, q: r, w: 0 })?;
        ends.push(0)?;
    }
    Ok(())
}

// Whether there is a Cross or Cap row.
fn has_taker(rows: &[Row]) -> bool
    ensures { result ≡ list_any is_taker rows.now }
{
    rows.iter().any(|row| is_taker_row(*row))
}

// What the divisor and the weights are multiplied by before the first round, so that small weights can be shared out.
pub fn factor_of(q: u64, rows: &[Row]) -> u64
    ensures { result ≡ factor q rows.now }
{
    if q <= 10_000 && !has_taker(rows) {
        60
    } else {
        1
    }
}

fn scaled_row(row: Row, factor: u64) -> Row
    requires few { factor ≤ 60 }
    requires light { weight row ≤ 1000000000000 }
    ensures { result ≡ reweigh row (weight row * factor) }
{
    reweighed(row, weight_of(row) * factor)
}

// The rows, their weights multiplied by a number.
pub fn scaled_rows(alloc: Global, rows: &[Row], factor: u64) -> Result<Vec<Row>, NoMemory>
    requires few { factor ≤ 60 }
    requires light { AreLight rows.now }
    ensures { IfOk result (λ v. v.items ≡ scaled factor rows.now) }
{
    let mut list = Vec::with_capacity(alloc, rows.len())?;
    for row in rows {
        list.push(scaled_row(*row, factor))?;
    }
    Ok(list)
}
