// The check of an input that should be a report.
ghost use Rattle.std.specs.Prelude.{◌≡◌, ◌≢◌, IfOk};
ghost use Rattle.report_io.specs.Limits.{AreLaterWithin};
ghost use Rattle.report_io.specs.Report.{Gives, HasFault};
ghost use Rattle.report_answers.specs.Answers.{IsChecked, IsRefusedReport};

use crate::answer::{ReportAnswer, Told};
use crate::lines::{no_line, refused_line, valid_line};
use mcp_outside::NoMemory;
use report_check::{Verdict, check_report};
use report_io::{Report, ReportFault, read_report};
use std::alloc::Global;

/// The refusal of an input that is no report.
pub fn refused_report(
    alloc: Global,
    bytes: &[u8],
    fault: &ReportFault,
) -> Result<ReportAnswer, NoMemory>
    requires named { fault.now ≢ ReportFault.NoMemory }
    requires fault { HasFault bytes.now fault.now }
    ensures told { IfOk result (λ answer. answer.told ≡ Told.Refused) }
    ensures text { IfOk result (λ answer. IsRefusedReport bytes.now answer.text.items) }
{
    let _ = bytes;
    let line = refused_line(alloc, fault)?;
    Ok(ReportAnswer::of_line(Told::Refused, line))
}

/// What `check` answers to an input.
pub fn check_text(alloc: Global, bytes: &[u8]) -> Result<ReportAnswer, NoMemory>
    ensures { IfOk result (λ answer. IsChecked bytes.now answer.told answer.text.items) }
{
    match read_report(alloc, bytes) {
        Ok(report) => checked(alloc, bytes, &report),
        Err(ReportFault::NoMemory) => Err(NoMemory),
        Err(fault) => refused_report(alloc, bytes, &fault),
    }
}

// The verdict on the report that an input is.
fn checked(alloc: Global, bytes: &[u8], report: &Report) -> Result<ReportAnswer, NoMemory>
    requires gives { Gives bytes.now report.now }
    requires within { AreLaterWithin report.now }
    ensures { IfOk result (λ answer. IsChecked bytes.now answer.told answer.text.items) }
{
    let (_, _count) = (bytes, report.instance.points.len());
    match check_report(alloc, report)? {
        Verdict::Valid => {
            let line = valid_line(alloc, &report.summary)?;
            Ok(ReportAnswer::of_line(Told::Yes, line))
        }
        verdict => {
            let line = no_line(alloc, verdict)?;
            Ok(ReportAnswer::of_line(Told::No, line))
        }
    }
}
