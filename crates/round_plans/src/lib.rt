//! The plans of a round of an edit worker: from its looks at a vertex and the vertex's neighbours, the first plan of each
//! kind, in the fixed order of their candidates.
#![tactic(auto)]

mod choosing;
mod found;
pub mod laws;
mod listing;
mod round;
mod trading;
mod walking;

pub use found::RoundPlans;
pub use round::Scratch;
