//! Reads solutions from any JSON that a contestant's tools write, and writes them.
#![tactic(auto)]

mod edges;
mod fault;
pub mod laws;
mod reading;
mod writing;

pub use fault::SolutionFault;
pub use reading::{read_solution, solution_of};
pub use writing::write_solution;

#[cfg(test)]
mod tests;
