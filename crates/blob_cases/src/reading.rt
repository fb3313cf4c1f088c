//! What a signature spells.

use crate::known::Known;
use sig_blobs::{field_of, method_of, property_of, spec_of};
use std::alloc::{AllocError, Global};

/// The type, the signature or the fault.
pub fn read(alloc: Global, known: &Known, what: &str, blob: &[u8]) -> Result<String, AllocError> {
    match what {
        "field" => format!(in alloc; "{:?}", field_of(alloc, blob, &known.names)),
        "property" => format!(in alloc; "{:?}", property_of(alloc, blob, &known.names)),
        "spec" => format!(in alloc; "{:?}", spec_of(alloc, blob, &known.names)),
        "method" => format!(in alloc; "{:?}", method_of(alloc, blob, &known.names)),
        _ => String::from_str(alloc, "no case"),
    }
}
