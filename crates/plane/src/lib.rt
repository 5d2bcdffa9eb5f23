//! Points in the plane and the exact tests on them. It alone computes with coordinates: the crates above name points by
//! their index and ask for orientation, betweenness, crossing, border and need.
#![tactic(auto)]

mod accepted;
mod bounding_box;
mod coordinates;
mod guides;
mod hull;
mod kernel;
mod making;
mod predicates;
mod segment;

pub use accepted::Points;
pub use coordinates::{BadPoints, COORDINATE_LIMIT, FEWEST_POINTS, MOST_POINTS, Point, Turn};
pub use kernel::{lies_between, turn_at};
pub use segment::{Pair, PairList};

#[cfg(test)]
mod tests;
