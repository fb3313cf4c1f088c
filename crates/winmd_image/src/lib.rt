//! The file around metadata (ECMA-335 II.24.2, II.25): `wrap` writes the headers of the file, of its one section and of the common
//! language, the root of the metadata and its five streams, exactly to the byte; `unwrap` finds the streams of any image where the
//! headers say that they are, or its first fault; and it takes apart what `wrap` makes.
#![tactic(auto)]

mod faults;
mod fields;
mod file_headers;
mod image;
mod laws;
mod pe;
mod root;
mod slices;
mod stream_headers;

pub use fields::{begins, field, number_at, part};
pub use image::{has_room, padded_size, wrap, wrap_types};
pub use laws::wrapped_is_unwrapped;
pub use slices::{Streams, unwrap};
