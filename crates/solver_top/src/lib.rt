//! What the program does: it reads its words, then its input, decides refusals, works, and writes.
#![tactic(auto)]

mod answers;
mod arguments;
mod bundles;
mod commands;
pub mod laws;
mod lines;
mod refusals;
mod running;
mod status;
mod words;

pub use answers::Answer;
pub use arguments::words_after_name;
pub use bundles::{Bundle, read_bundle};
pub use commands::editing::edited;
pub use commands::generating::generated;
pub use commands::judging::judged;
pub use commands::refusing::refused_instance;
pub use commands::solving::{solved, solved_made};
pub use commands::starting::started;
pub use commands::weaving::woven;
pub use refusals::{BundleFault, Refusal, Unread};
pub use running::{MOST_INPUT, run};
pub use status::{NO_WORDS, Status, Verdict};
pub use words::{Command, read_words};
