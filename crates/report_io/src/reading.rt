// The report that a text is.
ghost use Rattle.std.specs.Prelude.{IfOk};
ghost use Rattle.report_io.specs.Answers.{IsOr, IsRefusal, IsBehind};
ghost use Rattle.report_io.specs.Limits.{AreLaterWithin};
ghost use Rattle.report_io.specs.Report.{IsRead, IsExact};

use crate::certificate::read_valued;
use crate::faults::ReportFault;
use crate::journal::read_journal;
use crate::lines::{Lines, five_lines, line_count};
use crate::report::Report;
use crate::solution::read_named;
use crate::sums::read_summary;
use instance_io::{Instance, InstanceFault, read_instance};
use std::alloc::Global;

const LINES: usize = 5;

/// The report that a text is, or its first fault: the number of its lines, or the first fault of the first faulty line. The
/// bytes are cut at each LF, and an empty last piece is no line. Each line is read as JSON, whose numbers are rewritten
/// first; other keys are ignored. (This project's own.)
pub fn read_report(alloc: Global, bytes: &[u8]) -> Result<Report, ReportFault>
    ensures answer { IsRead bytes.now result }
    ensures exact { IsExact bytes.now result }
    ensures within { IfOk result AreLaterWithin }
{
    let count = line_count(bytes);
    if count != LINES {
        return Err(lines_fault(count));
    }
    let lines = five_lines(bytes);
    match read_instance(alloc, lines.first) {
        Ok(instance) => report_of(alloc, instance, &lines),
        Err(fault) => Err(refusal_of(fault)),
    }
}

// The refusal of an instance; want of memory is told by itself.
fn refusal_of(fault: InstanceFault) -> ReportFault
    ensures { IsRefusal fault result }
{
    match fault {
        InstanceFault::NoMemory => ReportFault::NoMemory,
        named => ReportFault::Instance(named),
    }
}

// The fault of so many lines; a number past 32 bits is taken as a want of memory.
fn lines_fault(count: usize) -> ReportFault
    ensures { IsOr (ReportFault.Lines count) result }
{
    match u32::try_from(count) {
        Ok(count) => ReportFault::Lines(count),
        Err(_) => ReportFault::NoMemory,
    }
}

// The report of an instance and the lines behind its own.
fn report_of(alloc: Global, instance: Instance, lines: &Lines<'_>) -> Result<Report, ReportFault>
    ensures { IsBehind instance lines.now.second.now lines.now.third.now lines.now.fourth.now lines.now.fifth.now result }
{
    let n = instance.points.len();
    let solution = match read_named(alloc, lines.second, n) {
        Ok(solution) => solution,
        Err(fault) => return Err(fault),
    };
    let valued = match read_valued(alloc, lines.third, n) {
        Ok(valued) => valued,
        Err(fault) => return Err(fault),
    };
    let journal = match read_journal(alloc, lines.fourth, n) {
        Ok(journal) => journal,
        Err(fault) => return Err(fault),
    };
    let summary = match read_summary(alloc, lines.fifth) {
        Ok(summary) => summary,
        Err(fault) => return Err(fault),
    };
    Ok(Report {
        instance,
        solution_name: solution.name,
        solution: solution.pairs,
        certificate: valued.certificate,
        value: valued.value,
        start: journal.start,
        commits: journal.commits,
        summary,
    })
}
