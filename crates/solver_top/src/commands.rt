// The commands, each a function from what was read to its text and verdict.

pub mod checking;
pub mod editing;
pub mod generating;
pub mod judging;
pub mod refusing;
pub mod solving;
pub mod starting;
pub mod weaving;
