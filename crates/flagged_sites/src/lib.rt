//! Declarations that flags tell: the first of them is refused.
#![tactic(auto)]

mod pass;

pub use pass::first_flagged;
