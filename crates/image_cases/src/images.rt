//! `base LENGTH;EDITS` says which image is edited: so many zeros with these edits. `edit OFFSET=BYTES|OFFSET=BYTES ..` prints what is read from that
//! image with edits, `cuts` what it finds at each shorter length. Offsets are hexadecimal.

use crate::classes::declared;
use crate::numbers::push_fault;
use case_text::{bytes_of, decimal, halves, hexadecimal};
use md_schema::ImageFault;
use ranked::Stop;
use std::alloc::{AllocError, Global};
use winmd_read::types_of;
use wr_base::Types;

/// Writes bytes over those at an offset.
pub fn write(image: &mut [u8], at: usize, bytes: &[u8]) {
    for (i, byte) in bytes.iter().enumerate() {
        if let Some(old) = image.get_mut(at.saturating_add(i)) {
            *old = *byte;
        }
    }
}

fn write_edit(image: &mut [u8], alloc: Global, edit: &str) -> Result<(), AllocError> {
    let (offset, bytes) = edit.split_once('=').unwrap_or((edit, ""));
    let bytes = bytes_of(alloc, bytes)?;
    write(image, hexadecimal(offset) as usize, &bytes);
    Ok(())
}

fn write_edits(image: &mut [u8], alloc: Global, edits: &str) -> Result<(), AllocError> {
    for edit in edits.split('|') {
        write_edit(image, alloc, edit)?;
    }
    Ok(())
}

/// So many zeros, with edits.
pub fn base(alloc: Global, case: &str) -> Result<Vec<u8>, AllocError> {
    let (length, edits) = halves(case);
    let mut image = vec![in alloc; 0u8; decimal(length) as usize]?;
    write_edits(image.as_mut_slice(), alloc, edits)?;
    Ok(image)
}

fn push_types(out: &mut String, types: &Types) -> Result<(), AllocError> {
    for i in 0..types.len() {
        declared(out, types.at(i))?;
        out.push_str("|")?;
    }
    Ok(())
}

fn push_stop(out: &mut String, stop: &Stop<ImageFault>) -> Result<(), AllocError> {
    match stop {
        Stop::Refused(fault) => push_fault(out, fault),
        Stop::Memory => out.push_str("memory"),
    }
}

/// What is read from an image: its types, or the first fault.
pub fn push_found(out: &mut String, image: &[u8]) -> Result<(), AllocError> {
    match types_of(*out.allocator(), image) {
        Ok(types) => push_types(out, &types),
        Err(stop) => push_stop(out, &stop),
    }
}

/// What is found in the edited image.
pub fn edit(out: &mut String, base: &[u8], case: &str) -> Result<(), AllocError> {
    let alloc = *out.allocator();
    let mut image = base.to_vec(alloc)?;
    write_edits(image.as_mut_slice(), alloc, case)?;
    push_found(out, &image)
}

fn found_in(alloc: Global, image: &[u8]) -> Result<String, AllocError> {
    let mut found = String::new(alloc);
    push_found(&mut found, image)?;
    Ok(found)
}

fn push_change(out: &mut String, length: usize, found: &str) -> Result<(), AllocError> {
    let alloc = *out.allocator();
    out.push_str(format!(in alloc; "{length:x}: {found}|")?.as_str())
}

// What is found at a length, where it is another than before.
fn push_next(
    out: &mut String,
    last: &mut String,
    length: usize,
    found: String,
) -> Result<(), AllocError> {
    if found.as_str() != last.as_str() {
        push_change(out, length, found.as_str())?;
        *last = found;
    }
    Ok(())
}

fn push_cuts(out: &mut String, last: &mut String, base: &[u8]) -> Result<(), AllocError> {
    for length in 0..base.len() {
        let found = found_in(*last.allocator(), &base[..length])?;
        push_next(out, last, length, found)?;
    }
    Ok(())
}

/// What is found in the image at each length from 0 on, each with the first length at which it is.
pub fn cuts(out: &mut String, base: &[u8]) -> Result<(), AllocError> {
    let mut last = String::new(*out.allocator());
    push_cuts(out, &mut last, base)
}
