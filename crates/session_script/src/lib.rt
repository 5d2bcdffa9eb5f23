//! Sessions as texts: an instance, and commands on the core of its start. They are read from JSON, and what their commands
//! are replied is written, a line for each: all that a command needs that plays a session.
#![tactic(auto)]

mod commands;
mod lines;
mod playing;
mod reading;
mod script;
#[cfg(test)]
mod tests;

pub use lines::refused_line;
pub use playing::session_text;
pub use reading::read_session;
pub use script::{SessionFault, SessionScript};
