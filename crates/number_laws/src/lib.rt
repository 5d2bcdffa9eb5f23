//! Laws of whole numbers, truth values and lists that the standard library lacks: products and their signs, cross products
//! of steps, sums. It has no code: the proofs of every crate above may cite its lemmas, and each stands here once.
#![tactic(auto)]
