//! What the solver's report has to be: a legal history from the start, its end as the solution, prices that bound every
//! convex partition from below. The laws say what a reader of such a report may rest on, and that a run without edit
//! workers is one.
#![tactic(auto)]

pub mod laws;
