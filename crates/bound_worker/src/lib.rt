//! What a bound worker does: it changes a certificate round by round, by a fixed rule and words of a random generator, and
//! keeps a change exactly where the value isn't smaller.
#![tactic(auto)]

mod drawing;
mod pricing;
mod raising;
mod rows;
mod trial;

pub use dual_prices::{Certificate, Costs};
pub use pricing::price;

#[cfg(test)]
mod tests;
