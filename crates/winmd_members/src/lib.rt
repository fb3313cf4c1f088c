//! The members of interfaces, as an image states them (ECMA-335 II.22.28): what each method is, then methods put together to members, then
//! what these say. Exactly what is defined, or the first fault where it stands.
#![tactic(auto)]

mod earlier;
mod items;
mod members;
mod roles;
mod tables;

pub use tables::members_in;
