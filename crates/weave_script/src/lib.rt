//! Scripts of the weave: an instance, and steps of several callers on the core of its start. They are read from JSON,
//! and what their steps are answered is written, a line for each: all that a command needs that plays a script.
#![tactic(auto)]

mod edits;
mod lines;
mod playing;
mod reading;
mod script;
mod steps;
#[cfg(test)]
mod tests;

pub use edits::edits_of;
pub use lines::{end_line, refused_line, why_text};
pub use playing::{core_of, push_end, script_text};
pub use reading::read_script;
pub use script::{Script, ScriptFault};
