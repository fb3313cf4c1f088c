//! The rows of interfaces that types have, in the order that is given, and of how classes are made, as they are drawn (ECMA-335 II.22.23, II.22.10).
#![tactic(auto)]

mod classes;
mod interfaces;

pub use classes::put_made;
pub use interfaces::{put_class_interfaces, put_interfaces};
