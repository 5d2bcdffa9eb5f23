// What a report is.
use crate::lists::CommitList;
use crate::summary::Summary;
use instance_io::{Instance, Name};
use plane::PairList;
use price_defs::Certificate;

/// A report: an instance, a solution under a name, a certificate with the value that it is said to have, a journal and its
/// start, and a summary. None of them need be right. (This project's own.)
#[derive(Drop)]
pub struct Report {
    pub instance: Instance,
    /// The name under which the solution stands.
    pub solution_name: Name,
    pub solution: PairList,
    pub certificate: Certificate,
    /// The value that the certificate is said to have.
    pub value: u64,
    /// The pairs with which the journal begins.
    pub start: PairList,
    pub commits: CommitList,
    pub summary: Summary,
}

/// The parts of a report, one a line.
#[derive(Clone, Copy, Debug, PartialEq, Eq)]
pub enum Part {
    Instance,
    Solution,
    Certificate,
    Journal,
    Summary,
}
