//! Tests of the board in threads: two that meet, and four with many random plans, against the plain slow program.
#![tactic(auto)]

#[cfg(test)]
mod tests;
