//! The order in which the interfaces of a type stand: by the rows that they lead to (ECMA-335 II.22.23).
#![tactic(auto)]

mod order;

pub use order::in_order;
