//! Structs that hold themselves, at any depth.
#![tactic(auto)]

mod cycles;
mod held;

pub use cycles::struct_cycles;
