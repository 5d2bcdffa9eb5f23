//! When a report is right, as a relation over the definitions of its parts, and which part of it fails first. The laws say
//! what the reader of a right report may rest on, and that the report of a solved instance is right.
#![tactic(auto)]

pub mod laws;
mod verdict;

pub use verdict::Verdict;
