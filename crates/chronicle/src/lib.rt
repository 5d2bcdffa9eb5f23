//! One history that several callers append to, and shares of it. A share knows a beginning of the history, and owns
//! some of its parts: nobody else can enter an entry that touches one of these. The shared board keeps its commits in one.
#![tactic(auto)]

mod calls;
mod history;
mod table;

pub use history::{Chronicle, Share};
pub use index_sets::Entry;

#[cfg(test)]
mod tests;
