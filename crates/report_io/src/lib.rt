//! Reads reports and writes them: an instance, a solution, a certificate, a journal and a summary, one a line.
#![tactic(auto)]

mod certificate;
mod certificate_text;
mod commits;
mod edits;
mod faults;
mod journal;
mod journal_text;
pub mod laws;
mod lines;
mod lists;
mod pieces;
mod reading;
mod report;
mod rows;
mod solution;
mod summary;
mod summary_text;
mod sums;
mod writing;

pub use edits::edit_of;
pub use faults::{CertLine, Field, JournalLine, ReportFault, SummaryLine};
pub use lists::{CommitList, Counts};
pub use reading::read_report;
pub use report::{Part, Report};
pub use rows::{row_of, row_value};
pub use summary::Summary;
pub use writing::{write_part, write_report};

#[cfg(test)]
mod tests;
