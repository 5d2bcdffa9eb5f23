//! What an entry of a shared history is, and the words on lists of indices that the shared tables and the board above
//! them speak in: who has which index, and which list begins which. Those crates cite its `specs/` and `proofs/Laws.antt`.
#![tactic(auto)]

mod entry;

pub use entry::Entry;

#[cfg(test)]
mod tests;
