//! Boxes with sides along the axes, round groups of points that lie near each other. One look at a box settles for all its
//! points that none of them is between two others, or right of their line. The judge and the list of crossings ask boxes
//! before they ask points.
#![tactic(auto)]

mod bounds;

pub use bounds::{Bounds, lower_left, upper_right};

#[cfg(test)]
mod tests;
