//! Rules on the members of one interface.
#![tactic(auto)]

mod arity;
mod overloads;

pub use arity::OverloadArity;
