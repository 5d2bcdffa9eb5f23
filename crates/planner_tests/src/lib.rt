//! Tests of the planner: worked plans on regions that are made by hand, looks of two moments, and all moves at every vertex of
//! small states beside the plain slow program.
#![tactic(auto)]

#[cfg(test)]
mod tests;
