//! The check of a branch tree: its least leaf value, which no convex partition undercuts, or the first fault of it. Those
//! who read a proof of a least cost ask it, and those who make one.
#![tactic(auto)]

mod checking;
mod leaf;
mod path;

pub use checking::check_tree;
pub use tree_defs::{MOST_LEAF_ROWS, MOST_LEAF_WEIGHT, MOST_NODES, Node, NodeList, TreeFault};
