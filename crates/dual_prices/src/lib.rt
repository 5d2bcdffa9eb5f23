//! Prices: certificates whose value no convex partition undercuts. It makes the floor certificate, raises certificates,
//! and keeps the loads of all pairs while weights change. The solver's bound, the bound workers and the prover stand on it.
#![tactic(auto)]

mod floor;
mod least;
mod loads;
mod raising;
mod reading;
mod rooms;

pub use cost_defs::Costs;
pub use floor::floor_certificate;
pub use loads::Loads;
pub use price_defs::{Certificate, MOST_DIVISOR, MOST_ROWS, MOST_WEIGHT, Row, RowList};
pub use raising::{full_end, raise_all, raise_row};
pub use reading::{load, value};

#[cfg(test)]
mod tests;
