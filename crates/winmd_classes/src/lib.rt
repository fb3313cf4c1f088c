//! Interfaces and classes, as an image states them (ECMA-335 II.22.23, II.22.10): exactly what is defined, or the first fault where it stands.
#![tactic(auto)]

mod classes;
mod defaults;
mod implemented;
mod interfaces;
mod makings;
mod ways;

pub use classes::class_of;
pub use interfaces::interface_of;
