//! Sets of declarations and the rows of metadata (ECMA-335 II.22): which rows a set is written as, which declarations rows state, whoever
//! wrote them, and that the rows of a set state that set.
#![tactic(auto)]

mod examples;
mod laws;

pub use examples::{examples_are_as_defined, faults_are_as_defined, outside_is_referred_to};
pub use laws::rows_state;
