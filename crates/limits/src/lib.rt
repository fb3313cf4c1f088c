//! The six limits of a set.
#![tactic(auto)]

mod first;

pub use first::first_limit;
