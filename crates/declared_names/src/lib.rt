//! No declaration of files is called as a fundamental type is: laws alone.
#![tactic(auto)]

mod laws;

pub use laws::{no_guid_is_declared, read_trees_are_worded};
