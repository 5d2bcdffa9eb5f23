//! Tests of the inverse, of undos and of the kept segments of earlier moments, from the starts of `triangulate`, against a
//! plain slow program.
#![tactic(auto)]

#[cfg(test)]
mod tests;
