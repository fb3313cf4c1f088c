//! The types that every source finds without declaring them: the structs, interfaces and delegates of the namespace
//! `Windows.Foundation` that the tools know by name, as plain values that take no memory.
#![tactic(auto)]

mod found;
mod table;

pub use found::{Found, FoundMember, FoundPart, FoundUse};
pub use table::{builtin, is_found};
