//! The weave: a core and an owner, or none, for each vertex and for the journal. Callers take places, append commits
//! that touch their own vertices alone, and give places back, one atomic step at a time. The command that plays a
//! script of steps stands on it; it is what threads that share a board do, told as one list.
#![tactic(auto)]

mod owners;
mod running;
mod step;

pub use running::run_steps;
pub use step::{Step, StepAnswer};
