//! The check of a certificate: its value, which no convex partition undercuts, or the first fault of it. Those who read a
//! report or a proof ask it.
#![tactic(auto)]

pub mod border_cost;
mod checking;
mod clear_tests;
mod overload;
mod shape;

pub use checking::{CertFault, check_certificate};

#[cfg(test)]
mod tests;
