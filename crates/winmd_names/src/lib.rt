//! The names of a set (ECMA-335 II.22): where each type, instance and constructor that the rows of a set use has its row, and by which
//! number each type is named.
#![tactic(auto)]

mod instance_rows;
mod lookups;
mod makers;
mod numbers;
mod references;
mod set_names;
mod texted;
mod whole;

pub use set_names::{InstanceRows, SetNames, TypeNames};
pub use whole::names_of;
