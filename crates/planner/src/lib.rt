//! Plans of an edit worker: moves that are tried on a handful of looks, and answered exactly where they fit these looks and
//! what they keep doesn't cost more than what they drop. Whether a plan is legal on the true state is the board's to decide.
#![tactic(auto)]

mod agreeing;
mod apexes;
mod blocking;
mod building;
mod dropping;
mod flipping;
mod flipswapping;
mod moves;
mod planning;
mod region;
mod slots;
mod swapping;
mod trading;

pub use agreeing::agree;
pub use dropping::plan_drop;
pub use flipping::plan_flip;
pub use flipswapping::plan_flip_swap;
pub use region::Region;
pub use swapping::plan_swap;
pub use trading::plan_trade;
