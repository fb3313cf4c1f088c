//! The limit on the uses of a set: how many bases and names stand in all uses, and how many bytes the names have.
#![tactic(auto)]

mod pass;
mod weights;

pub use pass::first_past_uses;
pub use weights::{Bytes, UseWeight, Words, weigh_used};
