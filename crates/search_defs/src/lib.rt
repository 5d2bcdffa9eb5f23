//! The rule by which bound workers change a certificate, over a list of random words, and its law.
#![tactic(auto)]

pub mod pricing;
