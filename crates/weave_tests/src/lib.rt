//! Tests of the weave's lists of steps, from the starts of `triangulate`, against a plain slow program.
#![tactic(auto)]

#[cfg(test)]
mod tests;
