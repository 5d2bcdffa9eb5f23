//! Laws of the report of a solved instance. Each is a function that does nothing: its contract is the law.
ghost use Rattle.std.specs.Prelude.{◌≡◌, ◌≤◌, ℕ};
ghost use Rattle.report_io.specs.Report.{report_text};
ghost use Rattle.solve_report.specs.Reports.{IsSolvedReport};
ghost use Rattle.solve_report.specs.Same.{HasSmallLists};
ghost use Rattle.solve_report.specs.Headline.{IsConvexThroughout, IsLastAndMinimal, NoneIsBelowBound, TellsOptimal};

use report_io::Report;

/// What the reader of the report of a solved instance may rest on: each beginning of the journal leads to a convex
/// partition, the last to the solution, of which no segment can be removed; no convex partition costs less than the
/// bound; optimal is said exactly where the solution costs that.
pub fn report_tells_what_is(report: &Report)
    requires { (E : ℕ) × IsSolvedReport E report.now }
    ensures history { IsConvexThroughout report.now }
    ensures last { IsLastAndMinimal report.now }
    ensures bound { NoneIsBelowBound report.now }
    ensures optimal { TellsOptimal report.now }
{
    let _count = report.instance.points.len();
}

/// The text of the report of a solved instance fixes the report: its instance, start, journal, solution and
/// certificate. Of two different reports of solved instances, with one number of edit workers, the texts differ.
pub fn text_fixes_solution(one: &Report, other: &Report)
    requires one { HasSmallLists one.now }
    requires other { HasSmallLists other.now }
    ensures { (E : ℕ) → E ≤ 16 → IsSolvedReport E one.now → IsSolvedReport E other.now
        → report_text one.now ≡ report_text other.now → one.now ≡ other.now }
{
    let _count = one.instance.points.len();
    let _costs = one.instance.costs.list();
    let _name = one.instance.name.as_str();
    let _solution_name = one.solution_name.as_str();
    let _other_count = other.instance.points.len();
    let _other_costs = other.instance.costs.list();
    let _other_name = other.instance.name.as_str();
    let _other_solution_name = other.solution_name.as_str();
}
