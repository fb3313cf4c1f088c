//! The ids of the instances that a set uses, by text, and the ids that are reserved.
#![tactic(auto)]

mod instances;
mod reserved;
mod table;

pub use instances::{instance_ids, instance_of};
pub use reserved::reserved_owners;
