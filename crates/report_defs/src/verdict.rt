// What the check of a report answers.
use cert_check::CertFault;
use plane::Pair;
use report_io::Field;

/// That a report is right, or the first part of it that fails. The parts are tried in this order. (This project's own.)
#[derive(Clone, Copy, Debug, PartialEq, Eq)]
pub enum Verdict {
    /// All parts are right.
    Valid,
    /// The solution stands under another name than the instance's.
    NoName,
    /// The solution has a pair twice, or is no convex partition.
    NoSolution,
    /// The start has a pair twice, or is no triangulation.
    NoStart,
    /// The first commit, counted from 1, that hasn't its caller's next number or has an edit that isn't legal in its turn.
    NoJournal(u32),
    /// The pairs that are kept in the end aren't those of the solution.
    NoResult,
    /// The least pair of the solution without which it is a convex partition still.
    NoLeast(Pair),
    /// The certificate isn't valid.
    NoCertificate(CertFault),
    /// The certificate hasn't the value that it is said to have.
    NoValue,
    /// The first field of the summary that is wrong.
    NoSummary(Field),
}
