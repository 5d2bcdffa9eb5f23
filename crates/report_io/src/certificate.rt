// The third line: a certificate with the value that it is said to have.
ghost use Rattle.std.specs.Prelude.{◌≡◌, map};
ghost use Rattle.serde_json.specs.View.{view};
ghost use Rattle.report_io.specs.Answers.{Answers, IsOr, tell_rows, tell_certificate};
ghost use Rattle.report_io.specs.Reading.{certificate_in, certificate_from, row_items};

use crate::faults::{CertLine, ReportFault};
use crate::lines::line_value;
use crate::rows::row_of;
use json_text::{array_at, number_at};
use price_defs::{Certificate, MOST_DIVISOR, Row, RowList};
use serde_json::Value;
use std::alloc::Global;

// The greatest number that a text has.
pub(crate) const MOST_64: u64 = 9_223_372_036_854_775_807;

// A certificate with the value that it is said to have.
#[derive(Drop)]
pub(crate) struct Valued {
    pub(crate) certificate: Certificate,
    pub(crate) value: u64,
}

// The certificate of a line, over n points.
pub(crate) fn read_valued(alloc: Global, bytes: &[u8], n: u32) -> Result<Valued, ReportFault>
    ensures { Answers tell_certificate (certificate_from n bytes.now) result }
{
    match line_value(alloc, bytes, ReportFault::Certificate(CertLine::NotJson)) {
        Ok(value) => valued_of(alloc, &value, n),
        Err(fault) => Err(fault),
    }
}

// The certificate that a value is.
fn valued_of(alloc: Global, value: &Value, n: u32) -> Result<Valued, ReportFault>
    ensures { Answers tell_certificate (certificate_in n (view value.now)) result }
{
    let Some(q) = number_at(value, "q", 0, MOST_DIVISOR) else {
        return Err(ReportFault::Certificate(CertLine::NoQ));
    };
    let Some(items) = array_at(value, "rows") else {
        return Err(ReportFault::Certificate(CertLine::NoRows));
    };
    let rows = match rows_of(alloc, items, n) {
        Ok(rows) => rows,
        Err(fault) => return Err(fault),
    };
    match number_at(value, "value", 0, MOST_64) {
        Some(value) => Ok(Valued {
            certificate: Certificate {
                q,
                rows: RowList::make(rows),
            },
            value,
        }),
        None => Err(ReportFault::Certificate(CertLine::NoValue)),
    }
}

// The rows of items in their order, or the fault of the first that is no row.
fn rows_of(alloc: Global, items: &[Value], n: u32) -> Result<Vec<Row>, ReportFault>
    ensures { Answers tell_rows (row_items n (map view items.now)) result }
{
    let Ok(mut rows) = Vec::with_capacity(alloc, items.len()) else {
        return Err(ReportFault::NoMemory);
    };
    for (place, item) in items.iter().enumerate() {
        let Some(row) = row_of(item, n) else {
            return Err(bad_row(place));
        };
        let Ok(_) = rows.push(row) else {
            return Err(ReportFault::NoMemory);
        };
    }
    Ok(rows)
}

// The fault of the row at a place; a place past 32 bits is taken as a want of memory.
fn bad_row(place: usize) -> ReportFault
    ensures { IsOr (ReportFault.Certificate (CertLine.BadRow place)) result }
{
    match u32::try_from(place) {
        Ok(place) => ReportFault::Certificate(CertLine::BadRow(place)),
        Err(_) => ReportFault::NoMemory,
    }
}
