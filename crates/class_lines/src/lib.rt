//! The rows of classes, whose interfaces stand in the order that is given, as they are drawn (ECMA-335 II.22).
#![tactic(auto)]

mod classes;

pub use classes::put_class;
