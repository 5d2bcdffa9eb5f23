//! Cells by place, each of which one holder at a time takes out by a single exchange. Every cell meets the fact of its
//! place whenever it lies there. The shared board keeps the stars of its points in them.
#![tactic(auto)]

mod closing;
mod holding;
mod making;
mod table;
mod taking;

pub use closing::CloseFault;
pub use holding::{Claims, Held, Holder};
pub use taking::Taken;

#[cfg(test)]
mod tests;
