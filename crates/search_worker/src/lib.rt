//! Edit workers: rounds of looks, plans and commits on a board, by a fixed rule and the words of a random generator. Where
//! one works alone on its board, what it commits is determined.
#![tactic(auto)]

mod handing;
mod log;
mod looking;
mod round;
mod working;

pub use log::WorkLog;
pub use working::work;
