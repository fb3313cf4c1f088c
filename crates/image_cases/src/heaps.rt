//! `text HEAP;INDEX`, `blob HEAP;INDEX` and `guid HEAP;INDEX` print what stands in a heap.

use crate::numbers::push_fault;
use case_text::{bytes_of, decimal, halves, push_runs};
use md_heaps::{blob_at, guid_at, text_at};
use std::alloc::AllocError;

fn push_text(out: &mut String, heap: &[u8], index: u32) -> Result<(), AllocError> {
    match text_at(heap, index) {
        Ok(text) => push_runs(out, text),
        Err(fault) => push_fault(out, &fault),
    }
}

/// The bytes of a text.
pub fn text(out: &mut String, case: &str) -> Result<(), AllocError> {
    let (heap, index) = halves(case);
    let heap = bytes_of(*out.allocator(), heap)?;
    push_text(out, &heap, decimal(index))
}

fn push_blob(out: &mut String, heap: &[u8], index: u32) -> Result<(), AllocError> {
    match blob_at(heap, index) {
        Ok(blob) => push_runs(out, blob),
        Err(fault) => push_fault(out, &fault),
    }
}

/// The bytes of a blob.
pub fn blob(out: &mut String, case: &str) -> Result<(), AllocError> {
    let (heap, index) = halves(case);
    let heap = bytes_of(*out.allocator(), heap)?;
    push_blob(out, &heap, decimal(index))
}

fn push_guid(out: &mut String, heap: &[u8], index: u32) -> Result<(), AllocError> {
    let alloc = *out.allocator();
    match guid_at(heap, index) {
        Ok(number) => out.push_str(format!(in alloc; "{number:032x}")?.as_str()),
        Err(fault) => push_fault(out, &fault),
    }
}

/// The number that a GUID is.
pub fn guid(out: &mut String, case: &str) -> Result<(), AllocError> {
    let (heap, index) = halves(case);
    let heap = bytes_of(*out.allocator(), heap)?;
    push_guid(out, &heap, decimal(index))
}
