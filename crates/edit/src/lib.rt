//! Which edits of a triangulation with kept pairs fit, decided from the stars of at most four vertices; plans of edits with
//! the claims on the vertices that they touch; and the step of a star through an edit. The journal's machine, the board and
//! the planner go by these calls.
#![tactic(auto)]

mod covering;
mod drop_row;
mod fitting;
mod flip_row;
mod following;
mod look;
mod marks;
mod plan;

pub use fitting::{fits, fits_on_true_stars};
pub use following::follow;
pub use journal_defs::{Claim, Edit, EditList, Why};
pub use look::Look;
pub use marks::opens_without;
pub use plan::{BadPlan, Plan};

#[cfg(test)]
mod tests;
