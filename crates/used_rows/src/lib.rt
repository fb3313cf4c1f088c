//! The rows of the constructors of attributes and of the instances that a set uses, as they are drawn (ECMA-335 II.22.25, II.22.39).
#![tactic(auto)]

mod constructors;
mod specs;

pub use constructors::put_makers;
pub use specs::put_specs;
