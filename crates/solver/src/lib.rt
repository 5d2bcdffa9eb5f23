//! Solves an instance: the start, its sweep, edit workers on a board of it, another sweep, and the best certificate of
//! bound workers.
#![tactic(auto)]

mod solving;
mod sweeping;
mod working;

pub use lower_bounds::Search;
pub use solving::{Solved, solve};

#[cfg(test)]
mod tests;
