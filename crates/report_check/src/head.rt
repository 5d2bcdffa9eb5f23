// Name, solution and start.
ghost use Rattle.std.specs.Prelude.{◌↔◌, IsTrue, MatchOption};
ghost use Rattle.report_io.specs.Limits.{AreLaterWithin};
ghost use Rattle.report_defs.specs.Relation.{HasName, HasSolution, HasStart, HasHead};
ghost use Rattle.report_defs.specs.Verdicts.{IsVerdict};

use cp_judge::{Judgement, judge};
use report_defs::Verdict;
use report_io::Report;
use triangulation_check::is_triangulation;

// Whether the solution stands under the instance's name.
fn has_name(report: &Report) -> bool
    ensures { IsTrue result ↔ HasName report.now }
{
    report.solution_name.as_bytes() == report.instance.name.as_bytes()
}

// Whether the solution has no pair twice and is a convex partition.
fn has_solution(report: &Report) -> bool
    requires { AreLaterWithin report.now }
    ensures { IsTrue result ↔ HasSolution report.now }
{
    match judge(&report.instance.points, report.solution.as_slice()) {
        Judgement::Convex(_) => true,
        _ => false,
    }
}

// Whether the start has no pair twice and is a triangulation.
fn has_start(report: &Report) -> bool
    requires { AreLaterWithin report.now }
    ensures { IsTrue result ↔ HasStart report.now }
{
    is_triangulation(&report.instance.points, report.start.as_slice())
}

/// What fails first of name, solution and start, or none.
pub fn head_fault(report: &Report) -> Option<Verdict>
    requires { AreLaterWithin report.now }
    ensures { MatchOption result (HasHead report.now) (IsVerdict report.now) }
{
    if !has_name(report) {
        return Some(Verdict::NoName);
    }
    if !has_solution(report) {
        return Some(Verdict::NoSolution);
    }
    if !has_start(report) {
        return Some(Verdict::NoStart);
    }
    None
}
