//! States of a triangulation with kept pairs, the edits that change them, and journals of commits. Beside the
//! definitions a plain slow program that replays a journal over lists and tests legality by all pairs and all points.
#![tactic(auto)]

mod commit;
mod edit;
pub mod laws;
mod plain;
mod state;
mod touch;

pub use commit::Commit;
pub use edit::{Claim, Edit, EditList, Why};
pub use plain::{after, after_all, first_illegal, is_legal, is_within, opening, replay};
pub use state::Lists;
pub use touch::is_touched;

#[cfg(test)]
mod tests;
