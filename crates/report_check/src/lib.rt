//! The check of a report: the first part of it that fails, or that it is right. Whoever is handed a report asks it, and need
//! not trust who wrote it.
#![tactic(auto)]

mod certificate;
mod checking;
mod head;
mod history;
mod opening;
mod result;
mod summary;

pub use checking::check_report;
pub use history::core_of;
pub use report_defs::Verdict;
