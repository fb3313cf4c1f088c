//! Long blobs, which are built of so many pieces.

use crate::known::Known;
use sig_blobs::{field_of, method_of};
use std::alloc::{AllocError, Global};

// A blob of so many pieces between a head and an end.
fn pieces(
    alloc: Global,
    count: u32,
    head: &[u8],
    piece: &[u8],
    end: &[u8],
) -> Result<Vec<u8>, AllocError> {
    let mut bytes = Vec::new(alloc);
    bytes.extend_from_slice(head)?;
    for _ in 0..count {
        bytes.extend_from_slice(piece)?;
    }
    bytes.extend_from_slice(end)?;
    Ok(bytes)
}

/// What a long blob spells: modifiers in front of a type, instances within each other, or out parameters.
pub fn built(alloc: Global, known: &Known, what: &str, count: &str) -> Result<String, AllocError> {
    let count = count.parse().unwrap_or(0);
    if what == "parameters" {
        let blob = pieces(alloc, count, &[0x20, 0x80, 0x80, 0x01], &[0x10, 0x08], &[])?;
        return format!(in alloc; "{:?}", method_of(alloc, &blob, &known.names).is_ok());
    }
    let blob = match what {
        "modifiers" => pieces(alloc, count, &[0x06], &[0x1F, 0x08], &[0x08])?,
        "nested" => pieces(alloc, count, &[0x06], &[0x15, 0x12, 0x09, 0x01], &[0x08])?,
        _ => Vec::new(alloc),
    };
    format!(in alloc; "{:?}", field_of(alloc, &blob, &known.names))
}
