//! What the blobs of an image's signatures spell (ECMA-335 II.23.2), by the types that its tokens name: exactly what is defined, or its
//! fault where it stands, at the cell of the blob or of the name that it uses.
#![tactic(auto)]

mod paths;
mod signatures;
mod spelled;
mod uses;

pub use signatures::{field_of, method_of, property_of};
pub use uses::use_in;
