//! The rules on one declaration, asked of all declarations of a set.
#![tactic(auto)]

mod faults;
mod on_uses;

pub use faults::first_site_fault;
