//! Tests of `solve` with edit workers, through `run`, over memory.
#![tactic(auto)]

#[cfg(test)]
mod tests;
