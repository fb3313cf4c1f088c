//! `put WIDTH;NUMBER` prints the bytes of a number, `get BYTES` the number that bytes are; `shortest NUMBER` and `compressed BYTES` do so for compressed
//! integers.

use case_text::{bytes_of, decimal, halves, push_runs};
use md_bytes::{number, put_number};
use md_heaps::{compressed, put_compressed};
use md_schema::ImageFault;
use std::alloc::AllocError;

/// The fault, and where it is.
pub fn push_fault(out: &mut String, fault: &ImageFault) -> Result<(), AllocError> {
    let alloc = *out.allocator();
    let kind = fault.kind;
    let offset = fault.offset;
    out.push_str(format!(in alloc; "{kind:?} at {offset:x}")?.as_str())
}

/// The number, and what stands behind it.
pub fn push_number(out: &mut String, number: u64, behind: &str) -> Result<(), AllocError> {
    let alloc = *out.allocator();
    out.push_str(format!(in alloc; "{number}{behind}")?.as_str())
}

/// The bytes of a number in so many bytes.
pub fn put(out: &mut String, case: &str) -> Result<(), AllocError> {
    let (width, number) = halves(case);
    let mut bytes = Vec::new(*out.allocator());
    put_number(&mut bytes, decimal(width), decimal(number) as u64)?;
    push_runs(out, &bytes)
}

fn push_value(out: &mut String, bytes: &[u8]) -> Result<(), AllocError> {
    if bytes.len() > 4 {
        return out.push_str("too many bytes");
    }
    push_number(out, number(bytes) as u64, "")
}

/// The number that up to four bytes are.
pub fn get(out: &mut String, case: &str) -> Result<(), AllocError> {
    let bytes = bytes_of(*out.allocator(), case)?;
    push_value(out, &bytes)
}

/// The shortest form of a number.
pub fn shortest(out: &mut String, case: &str) -> Result<(), AllocError> {
    let value = decimal(case);
    if value >= 0x2000_0000 {
        return Ok(());
    }
    let mut bytes = Vec::new(*out.allocator());
    put_compressed(&mut bytes, value)?;
    push_runs(out, &bytes)
}

fn push_integer(out: &mut String, bytes: &[u8]) -> Result<(), AllocError> {
    let alloc = *out.allocator();
    match compressed(bytes) {
        Ok((value, length)) => out.push_str(format!(in alloc; "{value} {length}")?.as_str()),
        Err(fault) => push_fault(out, &fault),
    }
}

/// The number that stands in front, and how many bytes it has.
pub fn integer(out: &mut String, case: &str) -> Result<(), AllocError> {
    let bytes = bytes_of(*out.allocator(), case)?;
    push_integer(out, &bytes)
}
