//! The names of a set as the rows of declarations ask for them: each type, instance and constructor has the row that the definitions say
//! (ECMA-335 II.22).
#![tactic(auto)]

mod makers;
mod set_referred;

pub use set_referred::SetReferred;
