//! A triangulation with its kept segments, held as the stars of all points.
#![tactic(auto)]

mod joining;
mod listing;
mod subdivision;

pub use subdivision::Subdivision;
