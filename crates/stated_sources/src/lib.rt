//! The full types of files are what rows can state: laws alone.
#![tactic(auto)]

mod laws;

pub use laws::full_types_are_stated;
