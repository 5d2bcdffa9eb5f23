// The summary, field by field.
ghost use Rattle.std.specs.Prelude.{◌≡◌, ◌≤◌, ◌<◌, ◌^◌, ◌↔◌, length, IsTrue, MatchOption};
ghost use Rattle.std.specs.List.{All};
ghost use Rattle.journal_defs.specs.Journal.{made};
ghost use Rattle.report_io.specs.declared.faults.Field.{Field as TheField};
ghost use Rattle.report_io.specs.Limits.{AreLaterWithin};
ghost use Rattle.report_defs.specs.Summaries.{AreCounted, compared, Holds, IsSummaryRight, IsSummaryFault};

use journal_defs::Commit;
use report_io::{Field, Report, Summary};

// How many commits the caller has made.
fn made(commits: &[Commit], caller: u32) -> usize
    ensures { result ≡ made caller commits.now }
{
    commits.iter().filter(|c| c.caller == caller).count()
}

// Whether each commit is of one of the first callers, so many.
fn are_of_first(commits: &[Commit], count: usize) -> bool
    ensures { IsTrue result ↔ All (λ c. c.caller < count) commits.now }
{
    commits.iter().all(|c| (c.caller as usize) < count)
}

// Whether the numbers are those of the callers' commits, and no other caller has made any.
fn are_counted(commits: &[Commit], counts: &[u32]) -> bool
    requires { length counts.now ≤ 17 }
    ensures { IsTrue result ↔ AreCounted commits.now counts.now }
{
    for c in 0..counts.len() {
        if made(commits, c as u32) != counts[c] as usize {
            return false;
        }
    }
    are_of_first(commits, counts.len())
}

// What the bound is compared with.
fn compared(summary: &Summary) -> u64
    ensures { result ≡ compared summary.now }
{
    if summary.version == 1 {
        u64::from(summary.edges)
    } else {
        summary.cost
    }
}

// Whether the cost is that of the solution's pairs, where the version has a cost.
fn has_cost(report: &Report) -> bool
    requires { AreLaterWithin report.now }
    ensures { IsTrue result ↔ Holds report.now TheField.Cost }
{
    report.summary.version != 2
        || report.summary.cost == report.instance.costs.total(report.solution.as_slice())
}

// Whether gap and bound are together what the bound is compared with.
fn has_gap(report: &Report) -> bool
    requires { AreLaterWithin report.now }
    ensures { IsTrue result ↔ Holds report.now TheField.Gap }
{
    report.summary.gap + report.summary.bound == compared(&report.summary)
}

// Whether it is told rightly that the bound is met.
fn has_optimal(report: &Report) -> bool
    ensures { IsTrue result ↔ Holds report.now TheField.Optimal }
{
    report.summary.optimal == (compared(&report.summary) == report.summary.bound)
}

// Whether the field says of the report what it is.
fn holds(report: &Report, field: Field) -> bool
    requires { AreLaterWithin report.now }
    ensures { IsTrue result ↔ Holds report.now field }
{
    let summary = &report.summary;
    match field {
        Field::Bound => summary.bound == report.value,
        Field::Commits => are_counted(report.commits.as_slice(), summary.commits.as_slice()),
        Field::Cost => has_cost(report),
        Field::Edges => summary.edges as usize == report.solution.as_slice().len(),
        Field::Gap => has_gap(report),
        Field::Optimal => has_optimal(report),
        Field::Version => summary.version != 1 || report.instance.costs.list().is_empty(),
    }
}

/// The first field of the summary that is wrong, or none.
pub fn summary_fault(report: &Report) -> Option<Field>
    requires { AreLaterWithin report.now }
    ensures { MatchOption result (IsSummaryRight report.now) (IsSummaryFault report.now) }
{
    if !holds(report, Field::Bound) {
        return Some(Field::Bound);
    }
    if !holds(report, Field::Commits) {
        return Some(Field::Commits);
    }
    if !holds(report, Field::Cost) {
        return Some(Field::Cost);
    }
    if !holds(report, Field::Edges) {
        return Some(Field::Edges);
    }
    if !holds(report, Field::Gap) {
        return Some(Field::Gap);
    }
    if !holds(report, Field::Optimal) {
        return Some(Field::Optimal);
    }
    if !holds(report, Field::Version) {
        return Some(Field::Version);
    }
    None
}
