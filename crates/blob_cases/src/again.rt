//! What is read is written again.

use crate::known::Known;
use sig_blobs::{
    field_of, method_of, property_of, put_field, put_method, put_property, put_spec, spec_of,
};
use std::alloc::{AllocError, Global};

fn type_again(
    alloc: Global,
    known: &Known,
    what: &str,
    blob: &[u8],
) -> Result<Vec<u8>, AllocError> {
    let mut into = Vec::new(alloc);
    match what {
        "field" => {
            if let Ok(ty) = field_of(alloc, blob, &known.names) {
                put_field(&mut into, &ty, &known.tokens)?;
            }
        }
        "property" => {
            if let Ok(ty) = property_of(alloc, blob, &known.names) {
                put_property(&mut into, &ty, &known.tokens)?;
            }
        }
        _ => {
            if let Ok(ty) = spec_of(alloc, blob, &known.names) {
                put_spec(&mut into, &ty, &known.tokens)?;
            }
        }
    }
    Ok(into)
}

fn method_again(alloc: Global, known: &Known, blob: &[u8]) -> Result<Vec<u8>, AllocError> {
    let mut into = Vec::new(alloc);
    if let Ok(sig) = method_of(alloc, blob, &known.names) {
        put_method(&mut into, &sig, &known.tokens)?;
    }
    Ok(into)
}

/// The canonical blob of what the blob spells; nothing where it spells nothing.
pub fn again(alloc: Global, known: &Known, what: &str, blob: &[u8]) -> Result<String, AllocError> {
    let bytes = if what == "method" {
        method_again(alloc, known, blob)?
    } else {
        type_again(alloc, known, what, blob)?
    };
    hex::encode(alloc, bytes)
}
