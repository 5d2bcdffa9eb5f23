// An earlier moment of an input that should be a report.
ghost use Rattle.std.specs.Prelude.{◌≡◌, ◌≢◌, ◌<◌, ◌≤◌, length, IfOk};
ghost use Rattle.report_io.specs.Limits.{AreLaterWithin};
ghost use Rattle.report_io.specs.Report.{Gives, HasFault};
ghost use Rattle.report_defs.specs.Relation.{IsRight};
ghost use Rattle.report_defs.specs.Verdicts.{IsVerdict};
ghost use Rattle.report_answers.specs.Rewinding.{IsRewound, AreKeptAfter};

use crate::answer::{ReportAnswer, Told};
use crate::checked::refused_report;
use crate::lines::{no_line, too_late_line};
use mcp_outside::NoMemory;
use plane::Pair;
use report_check::{Verdict, check_report, core_of};
use report_io::{Report, ReportFault, read_report};
use rewind::kept_after;
use solution_io::write_solution;
use std::alloc::Global;

/// What `rewind K` answers to an input: the segments that were kept after the first `k` commits, as a solution.
pub fn rewound(alloc: Global, bytes: &[u8], k: u32) -> Result<ReportAnswer, NoMemory>
    ensures { IfOk result (λ answer. IsRewound k bytes.now answer.told answer.text.items) }
{
    match read_report(alloc, bytes) {
        Ok(report) => rewound_report(alloc, bytes, &report, k),
        Err(ReportFault::NoMemory) => Err(NoMemory),
        Err(fault) => refused_moment(alloc, bytes, k, &fault),
    }
}

// The refusal of an input that is no report.
fn refused_moment(
    alloc: Global,
    bytes: &[u8],
    k: u32,
    fault: &ReportFault,
) -> Result<ReportAnswer, NoMemory>
    requires named { fault.now ≢ ReportFault.NoMemory }
    requires fault { HasFault bytes.now fault.now }
    ensures { IfOk result (λ answer. IsRewound k bytes.now answer.told answer.text.items) }
{
    let _ = k;
    refused_report(alloc, bytes, fault)
}

// The answer for the report that an input is.
fn rewound_report(
    alloc: Global,
    bytes: &[u8],
    report: &Report,
    k: u32,
) -> Result<ReportAnswer, NoMemory>
    requires gives { Gives bytes.now report.now }
    requires within { AreLaterWithin report.now }
    ensures { IfOk result (λ answer. IsRewound k bytes.now answer.told answer.text.items) }
{
    if report.commits.as_slice().len() < k as usize {
        return too_late(alloc, bytes, report, k);
    }
    match check_report(alloc, report)? {
        Verdict::Valid => kept_then(alloc, bytes, report, k),
        verdict => not_right(alloc, bytes, report, k, verdict),
    }
}

// The answer for a report with fewer commits.
fn too_late(alloc: Global, bytes: &[u8], report: &Report, k: u32) -> Result<ReportAnswer, NoMemory>
    requires gives { Gives bytes.now report.now }
    requires few { length report.now.commits < k }
    ensures { IfOk result (λ answer. IsRewound k bytes.now answer.told answer.text.items) }
{
    let _ = bytes;
    let _ = k;
    let _count = report.instance.points.len();
    let line = too_late_line(alloc, report.commits.as_slice().len())?;
    Ok(ReportAnswer::of_line(Told::Refused, line))
}

// The answer for a report that isn't right.
fn not_right(
    alloc: Global,
    bytes: &[u8],
    report: &Report,
    k: u32,
    verdict: Verdict,
) -> Result<ReportAnswer, NoMemory>
    requires gives { Gives bytes.now report.now }
    requires few { k ≤ length report.now.commits }
    requires wrong { verdict ≢ Verdict.Valid }
    requires verdict { IsVerdict report.now verdict }
    ensures { IfOk result (λ answer. IsRewound k bytes.now answer.told answer.text.items) }
{
    let _ = bytes;
    let _ = k;
    let _count = report.instance.points.len();
    let line = no_line(alloc, verdict)?;
    Ok(ReportAnswer::of_line(Told::No, line))
}

// The answer for a right report.
fn kept_then(alloc: Global, bytes: &[u8], report: &Report, k: u32) -> Result<ReportAnswer, NoMemory>
    requires gives { Gives bytes.now report.now }
    requires within { AreLaterWithin report.now }
    requires few { k ≤ length report.now.commits }
    requires right { IsRight report.now }
    ensures { IfOk result (λ answer. IsRewound k bytes.now answer.told answer.text.items) }
{
    let _ = bytes;
    let _count = report.instance.points.len();
    let kept = kept_of(alloc, report, k)?;
    let mut text = write_solution(alloc, &report.instance.name, kept.as_slice())?;
    text.push(b'\n')?;
    Ok(ReportAnswer {
        told: Told::Yes,
        text,
    })
}

// The segments that were kept after the first `k` commits of a right report.
fn kept_of(alloc: Global, report: &Report, k: u32) -> Result<Vec<Pair>, NoMemory>
    requires within { AreLaterWithin report.now }
    requires right { IsRight report.now }
    requires few { k ≤ length report.now.commits }
    ensures { IfOk result (λ list. AreKeptAfter report.now k list.items) }
{
    let core = core_of(alloc, report)?;
    let moment = u64::from(k);
    kept_after(alloc, &core, moment)
}
