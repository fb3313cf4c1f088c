//! What is broken in a set of declarations: the 28 rules, and the limits where no rule is broken.
//!
//! `check` answers whether a set is accepted, and else the first entry that is broken; `first_fault` is that entry.
#![tactic(auto)]

mod checking;
mod faults;

pub use checking::check;
pub use faults::first_fault;
