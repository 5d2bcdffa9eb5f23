//! Tests of claims and of a history together: the history's parts lie in the claims' cells, as on the shared board. It
//! has no items of its own.
#![tactic(auto)]

#[cfg(test)]
mod tests;
