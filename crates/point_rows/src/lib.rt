//! The rows of a certificate, kept by the point at which they stand, with what Cross and Cap rows take off kept by pair:
//! a load is then a sum over the rows at two points. Those who raise, price and check certificates stand on it.
#![tactic(auto)]

mod point_rows;
mod takers;

pub use point_rows::PointRows;
pub use takers::Takers;

#[cfg(test)]
mod tests;
