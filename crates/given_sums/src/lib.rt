//! What the rows of a certificate give to pairs, summed up a strip at a time: the pairs whose lesser ends are a few points
//! in a row by index. Who needs the sums of all pairs, as the check of a certificate does, takes one strip after the other.
#![tactic(auto)]

mod adding;
mod strip;

pub use strip::{GivenSums, STRIP};

#[cfg(test)]
mod tests;
