//! Branch trees that bound the cost of convex partitions: nodes, what makes a tree right, its least leaf value, the tree of
//! the plain search, and the laws of these. Those who check and make such trees cite its definitions.
#![tactic(auto)]

pub mod laws;
pub mod node;
pub mod plain;

pub use node::{MOST_LEAF_ROWS, MOST_LEAF_WEIGHT, MOST_NODES, Node, NodeList, TreeFault};
