//! The rules on members of one name and on the members of factories, asked of all declarations of a set.
#![tactic(auto)]

mod faults;

pub use faults::first_member_fault;
