//! Plans of edits that are made on a handful of looks: what a region tells of edits, the answer of each call of the planner
//! as one relation, and its laws. Beside them a plain slow program that tests edits on the lists of a state.
#![tactic(auto)]

pub mod laws;
mod moves;
mod plain;
mod weighing;

pub use moves::Move;
pub use plain::are_fine;
pub use weighing::is_no_dearer;

#[cfg(test)]
mod tests;
