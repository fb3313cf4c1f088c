//! The rows of TypeRef, as they are drawn (ECMA-335 II.22.38).
#![tactic(auto)]

mod refs;

pub use refs::put_refs;
