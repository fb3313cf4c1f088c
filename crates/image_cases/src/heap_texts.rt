//! `texts TEXT|TEXT ..`, `blobs BLOB|BLOB ..` and `guids GUID|GUID ..` print the indices at which entries are interned, and the heap; `numbered COUNT` interns so
//! many GUIDs.

ghost use Rattle.std.specs.Prelude.{IsTrue};
ghost use Rattle.md_heaps.specs.Texts.{HasNoZero};

use crate::numbers::push_number;
use case_text::{bytes_of, decimal, push_runs};
use md_heaps::{BlobHeap, GuidHeap, TextHeap, guid_at};
use ranked::Stop;
use std::alloc::AllocError;

fn has_no_zero(text: &[u8]) -> bool
    ensures { IsTrue result → HasNoZero text.now }
{
    text.iter().all(|byte| *byte != 0)
}

fn push_index<R: Drop>(out: &mut String, index: Result<u32, Stop<R>>) -> Result<(), AllocError> {
    match index {
        Ok(index) => push_number(out, index as u64, " "),
        Err(_) => out.push_str("full "),
    }
}

fn intern_text(out: &mut String, heap: &mut TextHeap, bytes: &[u8]) -> Result<(), AllocError> {
    if has_no_zero(bytes) {
        push_index(out, heap.intern(bytes))
    } else {
        out.push_str("zero ")
    }
}

fn push_text(out: &mut String, heap: &mut TextHeap, text: &str) -> Result<(), AllocError> {
    let bytes = bytes_of(*out.allocator(), text)?;
    intern_text(out, heap, &bytes)
}

fn push_texts(out: &mut String, heap: &mut TextHeap, case: &str) -> Result<(), AllocError> {
    for text in case.split('|') {
        push_text(out, heap, text)?;
    }
    push_runs(out, heap.bytes())
}

/// The indices of the texts, and `#Strings`.
pub fn texts(out: &mut String, case: &str) -> Result<(), AllocError> {
    let mut heap = TextHeap::new(*out.allocator())?;
    push_texts(out, &mut heap, case)
}

fn intern_blob(out: &mut String, heap: &mut BlobHeap, bytes: &[u8]) -> Result<(), AllocError> {
    if bytes.len() > 0x1000_0000 {
        out.push_str("long ")
    } else {
        push_index(out, heap.intern(bytes))
    }
}

fn push_blob(out: &mut String, heap: &mut BlobHeap, text: &str) -> Result<(), AllocError> {
    let bytes = bytes_of(*out.allocator(), text)?;
    intern_blob(out, heap, &bytes)
}

fn push_blobs(out: &mut String, heap: &mut BlobHeap, case: &str) -> Result<(), AllocError> {
    for text in case.split('|') {
        push_blob(out, heap, text)?;
    }
    push_runs(out, heap.bytes())
}

/// The indices of the blobs, and `#Blob`.
pub fn blobs(out: &mut String, case: &str) -> Result<(), AllocError> {
    let mut heap = BlobHeap::new(*out.allocator())?;
    push_blobs(out, &mut heap, case)
}

fn intern_guid(out: &mut String, heap: &mut GuidHeap, bytes: &[u8]) -> Result<(), AllocError> {
    if bytes.len() == 16 {
        push_index(out, heap.intern(bytes))
    } else {
        out.push_str("no guid ")
    }
}

fn push_guid(out: &mut String, heap: &mut GuidHeap, text: &str) -> Result<(), AllocError> {
    let bytes = bytes_of(*out.allocator(), text)?;
    intern_guid(out, heap, &bytes)
}

fn push_guids(out: &mut String, heap: &mut GuidHeap, case: &str) -> Result<(), AllocError> {
    for text in case.split('|') {
        push_guid(out, heap, text)?;
    }
    push_runs(out, heap.bytes())
}

/// The indices of the GUIDs, and `#GUID`.
pub fn guids(out: &mut String, case: &str) -> Result<(), AllocError> {
    let mut heap = GuidHeap::new(*out.allocator());
    push_guids(out, &mut heap, case)
}

fn intern_number(heap: &mut GuidHeap, number: u32) -> bool {
    let [a, b, c, d] = number.to_le_bytes();
    match heap.intern(&[a, b, c, d, 0, 0, 0, 0, 0, 0, 0, 0, 0, 0, 0, 0]) {
        Ok(index) => index == number,
        Err(_) => false,
    }
}

// How many of the GUIDs 1, 2 .. get their number as index.
fn intern_numbers(heap: &mut GuidHeap, count: u32) -> u32 {
    let mut good = 0u32;
    for number in 0..count {
        if intern_number(heap, number.saturating_add(1)) {
            good = good.saturating_add(1);
        }
    }
    good
}

/// How many of the GUIDs 1, 2 .. get their number as index, the length of the heap, and the last GUID.
pub fn numbered(out: &mut String, case: &str) -> Result<(), AllocError> {
    let alloc = *out.allocator();
    let count = decimal(case);
    let mut heap = GuidHeap::new(alloc);
    let good = intern_numbers(&mut heap, count);
    let length = heap.bytes().len();
    let last = guid_at(heap.bytes(), count).unwrap_or(0);
    out.push_str(format!(in alloc; "{good} {length} {last:032x}")?.as_str())
}
