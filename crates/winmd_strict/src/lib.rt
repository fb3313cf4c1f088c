//! Images of sets of declarations, on whole bytes: what an image states, whoever wrote it, which images are strict, and that a strict image
//! states the set whose rows it holds (ECMA-335 II.22 to II.25).
#![tactic(auto)]

mod laws;

pub use laws::{not_strict, one_is_strict, strict_states};
