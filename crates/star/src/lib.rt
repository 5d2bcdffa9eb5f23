//! The star of a vertex: its neighbours counterclockwise from the direction of the positive x axis, each with a mark
//! whether it is kept. The order comes from orientation alone. A star finds a neighbour by halving, and keeps for each
//! kept neighbour whether its removal leaves a need of the centre unmet. The module `laws` says how the needs follow
//! from the gaps between the kept neighbours.
#![tactic(auto)]

pub mod laws;
mod links;
mod seek;
mod star;
mod stars;
mod turn;

pub use star::Star;
pub use stars::Stars;

#[cfg(test)]
mod tests;
