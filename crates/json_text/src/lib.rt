//! Reads JSON from bytes and writes it: the numbers of a text rewritten to whole numbers, its levels counted, its value,
//! the fields and numbers of a value, and the parts that written texts are made of. The crates that read and write
//! instances, solutions and reports stand on it.
#![tactic(auto)]

mod fields;
mod items;
mod levels;
mod numbers;
mod reading;
mod rewriting;
mod strings;
mod whole_numbers;
mod writing;

pub use fields::{array_at, array_of, below, has, text_at, whole_at, whole_below};
pub use items::{index, is_tag, number_at, number_within};
pub use reading::{TextFault, value_of};
pub use rewriting::plain_numbers;
pub use whole_numbers::whole;
pub use writing::{push_comma, push_index, push_natural, push_whole, quoted};

#[cfg(test)]
mod tests;
