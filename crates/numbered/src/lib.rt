//! Texts that are numbered as they are met.
#![tactic(auto)]

mod numbers;

pub use numbers::{Numbers, add, find, no_numbers, number};
