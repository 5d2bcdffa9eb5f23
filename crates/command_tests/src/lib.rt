//! Tests of the program's commands through `run`, over memory: their rows are worked out by hand.
#![tactic(auto)]

#[cfg(test)]
mod tests;
