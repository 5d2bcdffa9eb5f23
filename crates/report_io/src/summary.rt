// The summary of a report.
use crate::lists::Counts;

/// What line 5 says of a report. (This project's own.)
#[derive(Drop)]
pub struct Summary {
    /// The certificate's value.
    pub bound: u64,
    /// How many commits caller 0, 1 and so on has made.
    pub commits: Counts,
    /// The sum of the costs of the solution's pairs; in version 1 the number of them.
    pub cost: u64,
    /// The number of pairs of the solution.
    pub edges: u32,
    /// The cost less the bound.
    pub gap: u64,
    /// Whether cost and bound are equal.
    pub optimal: bool,
    /// 1 or 2. In version 1 the line has no cost.
    pub version: u32,
}
