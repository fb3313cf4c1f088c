//! Bytes as a case spells them.

use crate::digits::digit_value;
use std::alloc::{AllocError, Global};

/// Adds the bytes of pairs of hexadecimal digits.
pub fn push_bytes(bytes: &mut Vec<u8>, digits: &str) -> Result<(), AllocError> {
    let mut high = None;
    for digit in digits.as_bytes() {
        let value = digit_value(*digit);
        match high {
            None => high = Some(value),
            Some(first) => {
                bytes.push(value.wrapping_add(first.wrapping_mul(16)))?;
                high = None;
            }
        }
    }
    Ok(())
}

fn push_repeated(bytes: &mut Vec<u8>, count: u32, text: &str) -> Result<(), AllocError> {
    for _ in 0..count {
        bytes.extend_from_slice(text.as_bytes())?;
    }
    Ok(())
}

fn push_marked(bytes: &mut Vec<u8>, piece: &str) -> Result<(), AllocError> {
    match piece.split_once('*') {
        Some((count, text)) => push_repeated(bytes, count.parse().unwrap_or(0), text),
        None => push_bytes(bytes, piece),
    }
}

/// The text as it stands, but for each piece between two grave accents: pairs of hexadecimal digits spell bytes, and `COUNT*TEXT` the text so often.
pub fn bytes_of(alloc: Global, text: &str) -> Result<Vec<u8>, AllocError> {
    let mut bytes = Vec::new(alloc);
    let mut is_marked = false;
    for piece in text.split('`') {
        if is_marked {
            push_marked(&mut bytes, piece)?;
        } else {
            bytes.extend_from_slice(piece.as_bytes())?;
        }
        is_marked = !is_marked;
    }
    Ok(bytes)
}

/// What stands before the first semicolon, and behind it.
pub fn halves(text: &str) -> (&str, &str) {
    text.split_once(';').unwrap_or((text, ""))
}
