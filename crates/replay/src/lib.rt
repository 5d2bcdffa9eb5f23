//! The machine of a journal: a core holds the points, a subdivision and a journal, and its subdivision is always the replay
//! of its journal from its start. The command that sweeps a start stands on it, the weave, and later the board.
#![tactic(auto)]

mod changing;
mod counts;
mod editing;
mod fault;
mod machine;
mod reserving;

pub use fault::ApplyFault;
pub use journal_defs::Commit;
pub use machine::{Core, MOST_CALLER, MOST_COMMITS};
