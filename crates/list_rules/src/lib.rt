//! Rules on what interfaces require, what classes have, and structs within structs, over a whole set.
#![tactic(auto)]

mod closed;
mod graph;
mod names;
mod open;
mod rules;
mod texts;
mod twice;

pub use rules::{first_of_lists, first_struct_cycle};
