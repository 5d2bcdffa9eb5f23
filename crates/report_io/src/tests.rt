use crate::{
    CertLine, Field, JournalLine, Part, Report, ReportFault, SummaryLine, edit_of, read_report,
    row_of, row_value, write_part, write_report,
};
use instance_io::{InstanceFault, read_value};
use plane::BadPoints;
use solution_io::SolutionFault;
use std::alloc::AllocError;

mod faults;
mod forms;

// The five lines of a report over a square, of version 2.
const LINES: [&[u8]; 5] = [
    b"{\"name\":\"sq\",\"points\":[{\"i\":0,\"x\":0,\"y\":0},{\"i\":1,\"x\":0,\"y\":4},{\"i\":2,\"x\":4,\"y\":0},{\"i\":3,\"x\":4,\"y\":4}]}",
    b"{\"edges\":[{\"i\":0,\"j\":1},{\"i\":0,\"j\":2},{\"i\":1,\"j\":3},{\"i\":2,\"j\":3}],\"instance_name\":\"sq\",\"type\":\"Solution\"}",
    b"{\"q\":2,\"rows\":[],\"value\":4}",
    b"{\"commits\":[[0,1,[[\"d\",1,2]]]],\"start\":[[0,1],[0,2],[1,2],[1,3],[2,3]]}",
    b"{\"bound\":4,\"commits\":[1],\"cost\":4,\"edges\":4,\"gap\":0,\"optimal\":true,\"version\":2}",
];

// The report with this line in the place of its own.
fn with_line(rt: &HostRuntime, place: usize, line: &[u8]) -> Result<Vec<u8>, AllocError> {
    let mut text = Vec::new(rt.alloc());
    for (k, own) in LINES.iter().enumerate() {
        text.extend_from_slice(if k == place { line } else { own })?;
        text.push(b'\n')?;
    }
    Ok(text)
}

fn is_refused(rt: &HostRuntime, text: &[u8], want: ReportFault) -> bool {
    match read_report(rt.alloc(), text) {
        Ok(_) => false,
        Err(fault) => fault == want,
    }
}

// Whether the text is written again as it is.
fn is_kept(rt: &HostRuntime, text: &[u8]) -> bool {
    match read_report(rt.alloc(), text) {
        Ok(report) => is_written(rt, &report, text),
        Err(_) => false,
    }
}

fn is_written(rt: &HostRuntime, report: &Report, text: &[u8]) -> bool {
    if report.summary.version != 2 {
        return false;
    }
    match write_report(rt.alloc(), report) {
        Ok(written) => written.as_slice() == text,
        Err(_) => false,
    }
}

fn whole(rt: &HostRuntime) -> Result<Vec<u8>, AllocError> {
    with_line(rt, 5, b"")
}
