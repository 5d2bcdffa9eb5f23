// The verdict on a report.
ghost use Rattle.std.specs.Prelude.{◌≡◌, ◌↔◌, IfOk};
ghost use Rattle.report_io.specs.Limits.{AreLaterWithin};
ghost use Rattle.report_defs.specs.Relation.{IsRight};
ghost use Rattle.report_defs.specs.Verdicts.{IsVerdict};

use crate::certificate::certificate_fault;
use crate::head::head_fault;
use crate::history::history_fault;
use crate::summary::summary_fault;
use mcp_outside::NoMemory;
use report_defs::Verdict;
use report_io::Report;
use std::alloc::Global;

/// Whether a report is right, or the first part of it that fails, in the order of `Verdict`. (This project's own.)
pub fn check_report(alloc: Global, report: &Report) -> Result<Verdict, NoMemory>
    requires { AreLaterWithin report.now }
    ensures first { IfOk result (IsVerdict report.now) }
    ensures valid { IfOk result (λ verdict. (verdict ≡ Verdict.Valid) ↔ IsRight report.now) }
{
    if let Some(verdict) = head_fault(report) {
        return Ok(verdict);
    }
    if let Some(verdict) = history_fault(alloc, report)? {
        return Ok(verdict);
    }
    if let Some(verdict) = certificate_fault(alloc, report)? {
        return Ok(verdict);
    }
    match summary_fault(report) {
        Some(field) => Ok(Verdict::NoSummary(field)),
        None => Ok(Verdict::Valid),
    }
}
