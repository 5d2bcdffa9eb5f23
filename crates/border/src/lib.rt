//! The border of a point set, in order.
#![tactic(auto)]

mod chain;
mod cycle;
mod inner;

pub use cycle::border;
pub use inner::inner_marks;

#[cfg(test)]
mod tests;
