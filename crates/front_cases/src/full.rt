//! `full SOURCE|SOURCE ..` prints the full types of files, or the first fault of their names or of synthesis.

use crate::full_text::full_text;
use crate::lexing::push_stop;
use crate::names::{Answer, declared_by};
use class_synthesis::full;
use std::alloc::{AllocError, Global};
use wr_base::PlacedTypes;

/// The full types of files.
pub fn types_of(alloc: Global, case: &str) -> Answer<PlacedTypes> {
    full(alloc, declared_by(alloc, case)?)
}

/// The types, or the refusal.
pub fn full_types(out: &mut String, case: &str) -> Result<(), AllocError> {
    match types_of(*out.allocator(), case) {
        Ok(types) => full_text(out, &types),
        Err(stop) => push_stop(out, &stop),
    }
}
