//! The definitions of the texts that the product reads and writes, which the contracts of the crates
//! above cite: the numbers of a text, its levels and its reading as JSON, instances, solutions and bundles.
#![tactic(auto)]
