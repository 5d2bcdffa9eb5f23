//! The board: callers in threads of their own look at stars, and hand in plans. Each commit becomes exactly one entry
//! of one legal history, whatever the threads do, and every refusal has a cause that can be shown.
#![tactic(auto)]

mod board;
mod closing;
mod committing;
mod ending;
mod finishing;
mod holding;
mod laying;
mod looking;
mod making;
mod opening;
mod own;
mod owning;
mod refreshing;
mod slices;
mod stamping;

pub use board::{Board, LookFault, Pass};
pub use finishing::FinishFault;
pub use hands::Refusal;
pub use making::MakeFault;
pub use refreshing::HeldPlace;
