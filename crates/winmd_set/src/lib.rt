//! The set of types that an image states, of what its rows of TypeDef state: within the limits, no full name twice, in the order of full names.
#![tactic(auto)]

mod counts;
mod order;
mod parts;
mod set;
mod stated;
mod steps;

pub use parts::parts_of;
pub use set::types_from;
pub use stated::Stated;
