//! Signatures of methods with the names of their parameters, and delegates, as an image states them (ECMA-335 II.22.26, II.22.33): exactly
//! what is defined, or the first fault where it stands.
#![tactic(auto)]

mod delegates;
mod params;
mod signatures;

pub use delegates::delegate_of;
pub use signatures::signature_of;
