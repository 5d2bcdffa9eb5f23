//! The sweep triangulation of a point set. The sweep meets the points by x and then by y, and joins each new point to all
//! points of the border so far that it sees.
#![tactic(auto)]

mod chain;
mod starting;
mod sweep;

pub use starting::{start, start_pairs};
pub use sweep::sweep_pairs;

#[cfg(test)]
mod tests;
