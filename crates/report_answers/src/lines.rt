// The lines that are printed.
ghost use Rattle.std.specs.Prelude.{◌≡◌, string_bytes, IfOk};
ghost use Rattle.report_answers.specs.Lines.{field_text, yes_text, counts_text, valid_line, cert_fault_text, no_line};
ghost use Rattle.report_answers.specs.Lines.{third_text, fourth_text, fifth_text, report_fault_text, refused_line, too_late_line};

use cert_check::CertFault;
use fault_texts::{instance_fault_text, pair_text, solution_fault_text};
use report_check::Verdict;
use report_io::{CertLine, Field, JournalLine, ReportFault, Summary, SummaryLine};
use std::alloc::{AllocError, Global};

fn field_text(field: Field) -> &'static str
    ensures { result.now ≡ field_text field }
{
    match field {
        Field::Bound => "bound",
        Field::Commits => "commits",
        Field::Cost => "cost",
        Field::Edges => "edges",
        Field::Gap => "gap",
        Field::Optimal => "optimal",
        Field::Version => "version",
    }
}

fn yes_text(yes: bool) -> &'static str
    ensures { result.now ≡ yes_text yes }
{
    if yes { "yes" } else { "no" }
}

// What a right report says of itself, but for its cost.
fn counts_text(alloc: Global, summary: &Summary) -> Result<String, AllocError>
    ensures { IfOk result (λ text. string_bytes text ≡ counts_text summary.now) }
{
    let (edges, bound, gap) = (summary.edges, summary.bound, summary.gap);
    let optimal = yes_text(summary.optimal);
    format!(in alloc; "edges {edges} bound {bound} gap {gap} optimal {optimal}\n")
}

/// The line of a right report.
pub fn valid_line(alloc: Global, summary: &Summary) -> Result<String, AllocError>
    ensures { IfOk result (λ line. string_bytes line ≡ valid_line summary.now) }
{
    let counts = counts_text(alloc, summary)?;
    let cost = summary.cost;
    if summary.version == 1 {
        format!(in alloc; "valid {counts}")
    } else {
        format!(in alloc; "valid cost {cost} {counts}")
    }
}

fn cert_fault_text(alloc: Global, fault: CertFault) -> Result<String, AllocError>
    ensures { IfOk result (λ text. string_bytes text ≡ cert_fault_text fault) }
{
    match fault {
        CertFault::ZeroQ => format!(in alloc; "ZeroQ"),
        CertFault::TooManyRows(c) => format!(in alloc; "TooManyRows {c}"),
        CertFault::BadRow(k) => format!(in alloc; "BadRow {k}"),
        CertFault::Overload { pair, load } => {
            let pair = pair_text(alloc, pair)?;
            format!(in alloc; "Overload {pair} {load}")
        }
        CertFault::NoMemory => format!(in alloc; "NoMemory"),
    }
}

/// The line of a verdict that says no.
pub fn no_line(alloc: Global, verdict: Verdict) -> Result<String, AllocError>
    ensures { IfOk result (λ line. string_bytes line ≡ no_line verdict) }
{
    match verdict {
        Verdict::Valid => format!(in alloc; "valid\n"),
        Verdict::NoName => format!(in alloc; "no name\n"),
        Verdict::NoSolution => format!(in alloc; "no solution\n"),
        Verdict::NoStart => format!(in alloc; "no start\n"),
        Verdict::NoJournal(k) => format!(in alloc; "no journal {k}\n"),
        Verdict::NoResult => format!(in alloc; "no result\n"),
        Verdict::NoLeast(e) => {
            let e = pair_text(alloc, e)?;
            format!(in alloc; "no least {e}\n")
        }
        Verdict::NoCertificate(fault) => {
            let fault = cert_fault_text(alloc, fault)?;
            format!(in alloc; "no certificate {fault}\n")
        }
        Verdict::NoValue => format!(in alloc; "no certificate value\n"),
        Verdict::NoSummary(field) => {
            let field = field_text(field);
            format!(in alloc; "no summary {field}\n")
        }
    }
}

fn third_text(alloc: Global, fault: CertLine) -> Result<String, AllocError>
    ensures { IfOk result (λ text. string_bytes text ≡ third_text fault) }
{
    match fault {
        CertLine::NotJson => format!(in alloc; "NotJson"),
        CertLine::NoQ => format!(in alloc; "NoQ"),
        CertLine::NoRows => format!(in alloc; "NoRows"),
        CertLine::BadRow(k) => format!(in alloc; "BadRow {k}"),
        CertLine::NoValue => format!(in alloc; "NoValue"),
    }
}

fn fourth_text(alloc: Global, fault: JournalLine) -> Result<String, AllocError>
    ensures { IfOk result (λ text. string_bytes text ≡ fourth_text fault) }
{
    match fault {
        JournalLine::NotJson => format!(in alloc; "NotJson"),
        JournalLine::NoStart => format!(in alloc; "NoStart"),
        JournalLine::TooManyStart(c) => format!(in alloc; "TooManyStart {c}"),
        JournalLine::BadStart(k) => format!(in alloc; "BadStart {k}"),
        JournalLine::NoCommits => format!(in alloc; "NoCommits"),
        JournalLine::TooManyCommits(c) => format!(in alloc; "TooManyCommits {c}"),
        JournalLine::BadCommit(k) => format!(in alloc; "BadCommit {k}"),
    }
}

fn fifth_text(alloc: Global, fault: SummaryLine) -> Result<String, AllocError>
    ensures { IfOk result (λ text. string_bytes text ≡ fifth_text fault) }
{
    match fault {
        SummaryLine::NotJson => format!(in alloc; "NotJson"),
        SummaryLine::BadField(field) => {
            let field = field_text(field);
            format!(in alloc; "BadField {field}")
        }
    }
}

fn report_fault_text(alloc: Global, fault: &ReportFault) -> Result<String, AllocError>
    ensures { IfOk result (λ text. string_bytes text ≡ report_fault_text fault.now) }
{
    match fault {
        ReportFault::Lines(c) => format!(in alloc; "Lines {c}"),
        ReportFault::Instance(fault) => {
            let text = instance_fault_text(alloc, *fault)?;
            format!(in alloc; "1 {text}")
        }
        ReportFault::NoSolutionName => format!(in alloc; "2 NoName"),
        ReportFault::Solution(fault) => {
            let text = solution_fault_text(alloc, fault)?;
            format!(in alloc; "2 {text}")
        }
        ReportFault::Certificate(fault) => {
            let text = third_text(alloc, *fault)?;
            format!(in alloc; "3 {text}")
        }
        ReportFault::Journal(fault) => {
            let text = fourth_text(alloc, *fault)?;
            format!(in alloc; "4 {text}")
        }
        ReportFault::Summary(fault) => {
            let text = fifth_text(alloc, *fault)?;
            format!(in alloc; "5 {text}")
        }
        ReportFault::NoMemory => format!(in alloc; "NoMemory"),
    }
}

/// The line of a text that is no report.
pub fn refused_line(alloc: Global, fault: &ReportFault) -> Result<String, AllocError>
    ensures { IfOk result (λ line. string_bytes line ≡ refused_line fault.now) }
{
    let text = report_fault_text(alloc, fault)?;
    format!(in alloc; "refused report {text}\n")
}

/// The line of a report whose journal has so many commits, fewer than are asked for.
pub fn too_late_line(alloc: Global, commits: usize) -> Result<String, AllocError>
    ensures { IfOk result (λ line. string_bytes line ≡ too_late_line commits) }
{
    format!(in alloc; "refused rewind TooLate {commits}\n")
}
