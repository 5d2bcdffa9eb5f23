//! What a lower bound on the cost of every convex partition is: rows, certificates, loads and values over the costs of
//! pairs, and the law of weak duality. The crates that make, raise and check certificates cite its definitions.
#![tactic(auto)]

mod plain;
pub mod row;
pub mod weak_duality;

pub use plain::{
    added_of, are_indexed, are_light, are_right, is_alone, is_counted, is_lessened, is_right,
    load_of, lost_of, reweighed, stand_of, value_of, weight_of,
};
pub use row::{Certificate, MOST_DIVISOR, MOST_ROWS, MOST_WEIGHT, Row, RowList};

#[cfg(test)]
mod tests;
