//! Enums and structs, as an image states them (ECMA-335 II.22.15, II.22.9): exactly what is defined, or the first fault where it stands.
#![tactic(auto)]

mod constants;
mod enums;
mod marks;
mod structs;

pub use enums::enum_of;
pub use structs::struct_of;
