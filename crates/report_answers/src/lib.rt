//! What the commands on reports answer: from the bytes of an input to a text, and whether it says yes, no, or refuses the
//! input. The commands `check`, `part` and `rewind` stand on it.
#![tactic(auto)]

mod answer;
mod checked;
mod lines;
mod moments;
mod parts;
#[cfg(test)]
mod tests;

pub use answer::{ReportAnswer, Told};
pub use checked::check_text;
pub use moments::rewound;
pub use parts::part_of_text;
pub use report_io::Part;
