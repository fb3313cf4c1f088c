//! Declarations in the order of their places, and at one place in that of their names.
#![tactic(auto)]

mod stands;

pub use stands::{Stand, in_place_order};
