//! The interfaces that are made of classes: what a set of declarations is with them, before lists are closed.
//!
//! `raw` answers all declarations: those that are written, each interface and delegate with its id, and behind each class the interfaces that are made of it.
#![tactic(auto)]

mod class;
mod factory;
mod interfaces;
mod items;
mod names;
mod parts;
mod wants;

pub use items::raw;
pub use names::made_by;
