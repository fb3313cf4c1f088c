//! The limits of one declaration: how many parts it has, how many parameters a member takes, and how long its name is.
#![tactic(auto)]

mod counts;
mod names;

pub use counts::{ManyMembers, ManyParams};
pub use names::LongFullName;
