// Rows of a certificate, which are arrays that begin with a tag.
ghost use Rattle.std.specs.Prelude.{◌≡◌, map, length, option_map, IfOk};
ghost use Rattle.serde_json.specs.View.{view};
ghost use Rattle.report_io.specs.Reading.{row_in, row_of, weight};
ghost use Rattle.report_io.specs.Texts.{row_data, tagged_data};
ghost use Rattle.report_io.specs.Report.{row_item};

use crate::edits::pair_in;
use json_text::{array_of, index, is_tag, number_within};
use mcp_outside::NoMemory;
use price_defs::{MOST_WEIGHT, Row};
use serde_json::Value;
use std::alloc::Global;

/// The row over points below `n` that a value is: `["h",p,q,w]`, `["t",p,w]`, `["x",i,j,k,l,w]` for i-j and k-l, or
/// `["c",i,j,w]`, with a weight from 0 to 1,000,000,000,000. A pair may be written either way round; p and q may be one.
/// (This project's own.)
pub fn row_of(value: &Value, n: u32) -> Option<Row>
    ensures { option_map row_item result ≡ row_of n (view value.now) }
{
    let items = array_of(value)?;
    if items.len() == 3 {
        three_of(items, n)
    } else if items.len() == 4 {
        half_or_cap_of(items, n)
    } else if items.len() == 6 {
        cross_of(items, n)
    } else {
        None
    }
}

fn weight_of(value: &Value) -> Option<u64>
    ensures { result ≡ weight (view value.now) }
{
    number_within(value, 0, MOST_WEIGHT)
}

fn three_of(items: &[Value], n: u32) -> Option<Row>
    requires { length items.now ≡ 3 }
    ensures { option_map row_item result ≡ row_in n (map view items.now) }
{
    if is_tag(&items[0], "t") {
        let p = index(&items[1], n)?;
        let w = weight_of(&items[2])?;
        Some(Row::Three { p, w })
    } else {
        None
    }
}

fn half_or_cap_of(items: &[Value], n: u32) -> Option<Row>
    requires { length items.now ≡ 4 }
    ensures { option_map row_item result ≡ row_in n (map view items.now) }
{
    if is_tag(&items[0], "h") {
        let p = index(&items[1], n)?;
        let q = index(&items[2], n)?;
        let w = weight_of(&items[3])?;
        Some(Row::Half { p, q, w })
    } else if is_tag(&items[0], "c") {
        let e = pair_in(&items[1], &items[2], n)?;
        let w = weight_of(&items[3])?;
        Some(Row::Cap { e, w })
    } else {
        None
    }
}

fn cross_of(items: &[Value], n: u32) -> Option<Row>
    requires { length items.now ≡ 6 }
    ensures { option_map row_item result ≡ row_in n (map view items.now) }
{
    if is_tag(&items[0], "x") {
        let e = pair_in(&items[1], &items[2], n)?;
        let f = pair_in(&items[3], &items[4], n)?;
        let w = weight_of(&items[5])?;
        Some(Row::Cross { e, f, w })
    } else {
        None
    }
}

/// The value whose compact text is the row.
pub fn row_value(alloc: Global, row: &Row) -> Result<Value, NoMemory>
    ensures { IfOk result (λ value. view value ≡ row_data (row_item row.now)) }
{
    match row {
        Row::Half { p, q, w } => tagged(alloc, "h", &[u64::from(*p), u64::from(*q), *w]),
        Row::Three { p, w } => tagged(alloc, "t", &[u64::from(*p), *w]),
        Row::Cross { e, f, w } => {
            let numbers = [
                u64::from(e.lo()),
                u64::from(e.hi()),
                u64::from(f.lo()),
                u64::from(f.hi()),
                *w,
            ];
            tagged(alloc, "x", &numbers)
        }
        Row::Cap { e, w } => tagged(alloc, "c", &[u64::from(e.lo()), u64::from(e.hi()), *w]),
    }
}

// The array of a tag and numbers.
fn tagged(alloc: Global, tag: &str, numbers: &[u64]) -> Result<Value, NoMemory>
    ensures { IfOk result (λ value. view value ≡ tagged_data tag.now numbers.now) }
{
    let mut items = Vec::with_capacity(alloc, numbers.len())?;
    items.push(Value::try_from_str(alloc, tag)?)?;
    for number in numbers {
        items.push(Value::from(*number))?;
    }
    Ok(Value::from(items))
}
