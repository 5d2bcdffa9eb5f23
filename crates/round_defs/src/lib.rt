//! The rule by which an edit worker searches, as definitions: its looks, its candidates in their order, the plans of a
//! round, what handing them in makes of a journal, and a search of many rounds; and its laws.
#![tactic(auto)]

pub mod laws;
