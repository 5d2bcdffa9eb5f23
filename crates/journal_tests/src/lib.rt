//! Tests of the journal's machine against the plain slow program of its definitions, from the starts of `triangulate`.
#![tactic(auto)]

#[cfg(test)]
mod tests;
