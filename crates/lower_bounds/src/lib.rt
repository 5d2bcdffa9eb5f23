//! The lower bound that a run shows: the raised floor certificate, what bound workers find from it side by side, the best of
//! these, and its value over the cost of the border pairs.
#![tactic(auto)]

mod bests;
mod border_list;
mod bounding;
mod prices;

pub use bests::Search;
pub use bounding::{Basis, LowerBound, basis_of, bound_from, lower_bound};

#[cfg(test)]
mod tests;
