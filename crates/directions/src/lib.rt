//! Directions round each point: the fan of a point, the clear pairs, and who lies opposite to whom. The floor of the prices
//! asks for the first two points that a point is strictly between, the check of a certificate whether there are any; who
//! asks for many pairs whether they are clear takes the set of all clear pairs.
#![tactic(auto)]

mod bits;
mod clear;
mod fans;
mod finding;
mod line_key;
mod order;
mod rounds;
mod words;

pub use clear::{ClearPairs, clear_pairs};
pub use fans::{Fans, fan};
pub use finding::{Opposites, opposite};

#[cfg(test)]
mod tests;
