//! The workers of a run beside each other: edit workers on one board, bound workers from one certificate.
#![tactic(auto)]

mod jobs;
mod results;
mod working;

pub use working::work_all;
