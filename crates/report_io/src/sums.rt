// The fifth line: a summary.
ghost use Rattle.std.specs.Prelude.{◌≡◌, ◌≤◌, map, length, codes, option_and_then};
ghost use Rattle.serde_json.specs.View.{view};
ghost use Rattle.serde_json.specs.Find.{get, as_bool};
ghost use Rattle.text_defs.specs.Steps.{or_fault};
ghost use Rattle.report_io.specs.Answers.{Answers, itself, tell_counts};
ghost use Rattle.report_io.specs.Reading.{summary_in, summary_from, field, is_second, cost_in, counts_of, counts_in};

use crate::certificate::MOST_64;
use crate::faults::{Field, ReportFault, SummaryLine};
use crate::lines::line_value;
use crate::lists::Counts;
use crate::summary::Summary;
use json_text::{array_at, number_at, number_within};
use serde_json::Value;
use std::alloc::Global;

const MOST_32: u64 = 4_294_967_295;

const MOST_COUNTS: usize = 17;

// The summary of a line.
pub(crate) fn read_summary(alloc: Global, bytes: &[u8]) -> Result<Summary, ReportFault>
    ensures { Answers itself (summary_from bytes.now) result }
{
    match line_value(alloc, bytes, ReportFault::Summary(SummaryLine::NotJson)) {
        Ok(value) => summary_of(alloc, &value),
        Err(fault) => Err(fault),
    }
}

// The summary that a value is.
fn summary_of(alloc: Global, value: &Value) -> Result<Summary, ReportFault>
    ensures { Answers itself (summary_in (view value.now)) result }
{
    let Some(bound) = number_at(value, "bound", 0, MOST_64) else {
        return Err(ReportFault::Summary(SummaryLine::BadField(Field::Bound)));
    };
    let commits = match counts_at(alloc, value) {
        Ok(commits) => commits,
        Err(fault) => return Err(fault),
    };
    let stated = match cost_of(value) {
        Ok(stated) => stated,
        Err(fault) => return Err(fault),
    };
    let Some(edges) = number_at(value, "edges", 0, MOST_32) else {
        return Err(ReportFault::Summary(SummaryLine::BadField(Field::Edges)));
    };
    let Some(gap) = number_at(value, "gap", 0, MOST_64) else {
        return Err(ReportFault::Summary(SummaryLine::BadField(Field::Gap)));
    };
    let Some(optimal) = truth_at(value, "optimal") else {
        return Err(ReportFault::Summary(SummaryLine::BadField(Field::Optimal)));
    };
    let Some(version) = number_at(value, "version", 1, 2) else {
        return Err(ReportFault::Summary(SummaryLine::BadField(Field::Version)));
    };
    Ok(Summary {
        bound,
        commits: Counts::make(commits),
        cost: stated.unwrap_or(edges),
        edges: edges as u32,
        gap,
        optimal,
        version: version as u32,
    })
}

// The cost, which is looked at where the version is 2.
fn cost_of(value: &Value) -> Result<Option<u64>, ReportFault>
    ensures { Answers itself (cost_in (is_second (view value.now)) (view value.now)) result }
{
    match number_at(value, "version", 2, 2) {
        Some(_) => match number_at(value, "cost", 0, MOST_64) {
            Some(cost) => Ok(Some(cost)),
            None => Err(ReportFault::Summary(SummaryLine::BadField(Field::Cost))),
        },
        None => Ok(None),
    }
}

// The truth value under a key.
fn truth_at(value: &Value, key: &str) -> Option<bool>
    ensures { result ≡ option_and_then as_bool (get key.now (view value.now)) }
{
    match value.get(key) {
        Some(found) => found.as_bool(),
        None => None,
    }
}

// The numbers of commits.
fn counts_at(alloc: Global, value: &Value) -> Result<Vec<u32>, ReportFault>
    ensures { Answers tell_counts (field Field.Commits (codes "commits") counts_of (view value.now)) result }
{
    let Some(items) = array_at(value, "commits") else {
        return Err(ReportFault::Summary(SummaryLine::BadField(Field::Commits)));
    };
    if items.is_empty() {
        return Err(ReportFault::Summary(SummaryLine::BadField(Field::Commits)));
    }
    if items.len() > MOST_COUNTS {
        return Err(ReportFault::Summary(SummaryLine::BadField(Field::Commits)));
    }
    numbers_of(alloc, items)
}

// The numbers of 1 to 17 items.
fn numbers_of(alloc: Global, items: &[Value]) -> Result<Vec<u32>, ReportFault>
    requires some { 1 ≤ length items.now }
    requires few { length items.now ≤ 17 }
    ensures { Answers tell_counts (or_fault (ReportFault.Summary (SummaryLine.BadField Field.Commits)) (counts_in (map view items.now))) result }
{
    let Ok(mut numbers) = Vec::with_capacity(alloc, items.len()) else {
        return Err(ReportFault::NoMemory);
    };
    for item in items {
        let Some(number) = number_within(item, 0, MOST_32) else {
            return Err(ReportFault::Summary(SummaryLine::BadField(Field::Commits)));
        };
        let Ok(_) = numbers.push(number as u32) else {
            return Err(ReportFault::NoMemory);
        };
    }
    Ok(numbers)
}
