//! Reads instances from any JSON that a contestant's tools write, and writes them.
#![tactic(auto)]

mod costs;
mod instance;
mod instances;
mod items;
pub mod laws;
mod names;
mod points;
mod reading;
mod writing;

pub use cost_defs::Costs;
pub use costs::pair_of;
pub use instance::{instance_of, read_instance};
pub use instances::{Instance, InstanceFault};
pub use json_text::{plain_numbers, whole};
pub use names::Name;
pub use reading::read_value;
pub use writing::write_instance;

#[cfg(test)]
mod tests;
