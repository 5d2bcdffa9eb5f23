//! Tests of the commands that go back in a journal and that play a session, through `run`, over memory.
#![tactic(auto)]

#[cfg(test)]
mod tests;
