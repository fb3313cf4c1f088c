//! The full types of a set of declarations: with the interfaces that are made of its classes, ids wherever none is written, and closed lists.
//!
//! `full` answers them, each with its places, exactly where no made interface has a taken name, and else the first clash.
#![tactic(auto)]

mod clashes;
mod ordered;
mod synthesis;
mod taken;

pub use synthesis::full;
