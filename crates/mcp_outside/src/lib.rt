//! The ends of a program: where bytes come from and go to, with counts of their faults, and a gate between
//! two moments of a caller. Over memory for tests, and over std's reader and writer.
#![tactic(auto)]

mod counting;
mod ends;
mod gates;
mod memory;
mod streams;
mod whole;

pub use counting::Steps;
pub use ends::{Failed, NoMemory, ReadEnd, Sink, Source};
pub use gates::{Gate, OpenGate};
pub use memory::{MemorySink, MemorySource};
pub use streams::{StdSink, StdSource};
pub use whole::{read_all, read_uncounted, write_all};

#[cfg(test)]
mod tests;
