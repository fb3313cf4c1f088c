//! The rows of declarations of all kinds, one after the other, as they are drawn (ECMA-335 II.22): the interfaces of a type stand in the order of the
//! rows that they lead to.
#![tactic(auto)]

mod arranged;
mod declarations;

pub use declarations::{put_declaration, put_declarations};
