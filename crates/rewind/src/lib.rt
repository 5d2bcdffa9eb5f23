//! Going back in a journal: the inverse of an edit, the undo of a commit as a commit of its own, and the kept segments as
//! they were after the first commits. The commands that rewind a report and that play a session stand on it.
#![tactic(auto)]

mod inverting;
mod keeping;
mod undoing;

pub use inverting::inverse;
pub use keeping::kept_after;
pub use undoing::{UndoFault, undo};
