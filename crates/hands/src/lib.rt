//! What a caller has in hand of some vertices, and the edits that it makes in these stars and undoes. Nothing here speaks
//! of a table that callers share: the contracts hold for every sound state in which the hands are right.
#![tactic(auto)]

mod changing;
mod fitting;
mod making;
mod refusal;
mod stamps;

pub use changing::{change, reserve_all};
pub use making::{has_flip, make_edits, undo};
pub use refusal::Refusal;
pub use stamps::{first_stale, restamp};
