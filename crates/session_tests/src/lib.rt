//! Tests of sessions of edits, from the starts of `triangulate`, against a plain slow program.
#![tactic(auto)]

#[cfg(test)]
mod tests;
