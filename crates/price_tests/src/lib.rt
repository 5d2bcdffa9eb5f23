//! Tests of prices on drawn points and costs: bound workers, kept loads and the check of certificates against plain slow
//! programs of their definitions.
#![tactic(auto)]

#[cfg(test)]
mod tests;
