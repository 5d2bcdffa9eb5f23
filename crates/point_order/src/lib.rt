//! The points in the order in which a sweep meets them: by x, then by y.
#![tactic(auto)]

mod order;

pub use order::in_order;

#[cfg(test)]
mod tests;
