//! What a run with edit workers is: a first sweep, the commits of the workers, a second sweep; and its laws.
#![tactic(auto)]

pub mod laws;
