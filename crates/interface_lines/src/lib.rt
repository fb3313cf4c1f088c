//! The rows of interfaces, whose required ones stand in the order that is given, as they are drawn (ECMA-335 II.22).
#![tactic(auto)]

mod attributes;
mod interfaces;

pub use interfaces::put_interface;
