//! The report of a solved instance: what the commands `solve` and `gen-solve` print.
#![tactic(auto)]

pub mod laws;
mod reports;
mod summing;
mod texts;

pub use reports::solved_report;
pub use solver::Search;
pub use texts::{solved_line, solved_text};

#[cfg(test)]
mod tests;
