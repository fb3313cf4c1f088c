//! What an image states (ECMA-335 II.22 to II.25): the set of its types, exactly as it is defined, or its first fault with the fault's
//! offset in the image. It answers for any bytes.
#![tactic(auto)]

mod read;
mod rows;
mod streams;
mod tables;

pub use read::types_of;
