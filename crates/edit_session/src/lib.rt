//! A session of edits on a core: looks at stars, commits, undos and lower bounds, one command at a time. The command that
//! plays a session from a text stands on it.
#![tactic(auto)]

mod answering;
mod bounding;
mod command;
mod desk;
pub mod laws;
mod sessions;

pub use command::{EditCommand, Played, Reply, ReplyList};
pub use sessions::session;
