//! The stars of all points at their places, and the journal behind them, as callers in threads share them: what one
//! caller claims and gives back, place by place, and how a commit becomes the last of the one history. The shared
//! board stands on it.
#![tactic(auto)]

mod cells;
mod claiming;
mod entering;
mod journal;
mod shelf;

pub use cells::{Cell, Root};
pub use shelf::{Seat, Shelf};
