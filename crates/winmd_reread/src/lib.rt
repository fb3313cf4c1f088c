//! What is written is read again: the image of a set, read, is the set.
#![tactic(auto)]

mod again;

pub use again::reread;
