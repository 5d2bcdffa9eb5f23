//! The segments of a list that cross, by their positions in the list. Segments are put into blocks of neighbours with boxes
//! round their ends, and most pairs of segments are told apart by one look at a block or a group of blocks. The judge uses
//! the same blocks in room of its own.
#![tactic(auto)]

mod blocks;
mod crossing;
mod segments;

pub use blocks::{BLOCK, Block, GROUP, cross_at, may_cross, set_blocks};
pub use crossing::crossing_pairs;
pub use segments::{Segment, copy_segments, segment_of};

#[cfg(test)]
mod tests;
