//! The cost of a pair and of a list of pairs, once for the whole repository: the type that keeps an instance's costs, and
//! the definitions that the contracts of the crates above cite.
#![tactic(auto)]

mod costs;

pub use costs::{Costs, MOST_COST, are_costs};

#[cfg(test)]
mod tests;
