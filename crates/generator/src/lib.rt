//! Instances that anyone can make again from a number: points in strips at random, in a grid, or on
//! a parabola, near or far apart.
#![tactic(auto)]

mod kinds;
mod lists;
mod making;

pub use kinds::Kind;
pub use making::generate;

#[cfg(test)]
mod tests;
