//! Tests of the board, in one thread: worked plans, and hostile ones of a second pass.
#![tactic(auto)]

#[cfg(test)]
mod tests;
