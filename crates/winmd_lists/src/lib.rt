//! What is asked of all rows of an image before its types are read: a list that begins at 0 has no rows, and no type has a generic parameter.
#![tactic(auto)]

mod begun;
mod generic;

pub use begun::all_begin;
pub use generic::none_generic;
