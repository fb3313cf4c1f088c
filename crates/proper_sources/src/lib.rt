//! The full types of files are what the rules and limits are asked of: laws alone.
#![tactic(auto)]

mod laws;

pub use laws::{full_types_are_proper, read_trees_are_spelled};
