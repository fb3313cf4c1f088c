//! `rows SOURCE|SOURCE ..` prints how long the image of the full types of files is, and its rows; `bytes OFFSET:LENGTH ..;SOURCE|SOURCE ..` how long
//! it is, and bytes of it.

use crate::rows::{Which, push_image};
use crate::sources::{Answer, image};
use case_text::{decimal, halves, push_runs};
use std::alloc::AllocError;
use wr_base::{Refusal, Stop};

fn push_refusal(out: &mut String, refusal: &Refusal) -> Result<(), AllocError> {
    out.push_str(refusal.code.name())?;
    out.push_str(" ")?;
    out.push_str(refusal.word.as_str())
}

fn push_stop(out: &mut String, stop: &Stop<Refusal>) -> Result<(), AllocError> {
    match stop {
        Stop::Refused(refusal) => push_refusal(out, refusal),
        Stop::Memory => out.push_str("memory"),
    }
}

fn push_written(out: &mut String, written: &Answer<Vec<u8>>) -> Result<(), AllocError> {
    match written {
        Ok(bytes) => push_image(out, bytes.as_slice(), Which::All),
        Err(stop) => push_stop(out, stop),
    }
}

/// The rows of the image.
pub fn rows(out: &mut String, case: &str) -> Result<(), AllocError> {
    push_written(out, &image(*out.allocator(), case))
}

fn push_part(out: &mut String, bytes: &[u8], place: &str) -> Result<(), AllocError> {
    let (from, length) = place.split_once(':').unwrap_or((place, ""));
    let from = decimal(from) as usize;
    let to = from.saturating_add(decimal(length) as usize);
    out.push_str(" ")?;
    push_runs(out, bytes.get(from..to).unwrap_or(&[]))
}

/// The bytes at each of the places `OFFSET:LENGTH ..`.
pub fn push_places(out: &mut String, bytes: &[u8], places: &str) -> Result<(), AllocError> {
    for place in places.split_whitespace() {
        push_part(out, bytes, place)?;
    }
    Ok(())
}

fn push_parts(out: &mut String, bytes: &[u8], places: &str) -> Result<(), AllocError> {
    let alloc = *out.allocator();
    let length = bytes.len();
    out.push_str(format!(in alloc; "{length}")?.as_str())?;
    push_places(out, bytes, places)
}

fn push_bytes_of(
    out: &mut String,
    places: &str,
    written: &Answer<Vec<u8>>,
) -> Result<(), AllocError> {
    match written {
        Ok(bytes) => push_parts(out, bytes.as_slice(), places),
        Err(stop) => push_stop(out, stop),
    }
}

/// Bytes of the image.
pub fn bytes(out: &mut String, case: &str) -> Result<(), AllocError> {
    let (places, sources) = halves(case);
    push_bytes_of(out, places, &image(*out.allocator(), sources))
}
