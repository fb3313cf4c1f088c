//! An accepted set is one that rows can state: laws, and that numbers have their widths.
#![tactic(auto)]

mod laws;
mod widths;

pub use laws::{accepted_is_writable, guid_is_the_base_type};
pub use widths::have_widths;
