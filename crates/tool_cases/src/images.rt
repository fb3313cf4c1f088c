//! `image` prints for the case of `tool` the status, how many bytes stand on out and in `a.winmd`, and what stands on err. `bytes OFFSET:LENGTH ..;` before the
//! same prints how long `a.winmd` is and bytes of it, and `reread` what is read from it.

use crate::tool::{Run, run_of};
use case_text::{decimal, declaration, halves, push_runs};
use std::alloc::AllocError;
use winmd_read::types_of;
use wr_base::Types;

fn push_lengths(out: &mut String, run: &Run) -> Result<(), AllocError> {
    let alloc = *out.allocator();
    let length = run.image().map(|bytes| bytes.len());
    let printed = run.out.bytes.len();
    out.push_str(format!(in alloc;
        "{} {printed} {length:?} {:?}",
        run.status,
        run.said()
    )?.as_str())
}

/// The status, how long out and the image are, and what stands on err.
pub fn image(out: &mut String, case: &str) -> Result<(), AllocError> {
    let run = run_of(*out.allocator(), case)?;
    push_lengths(out, &run)
}

fn push_length(out: &mut String, length: usize) -> Result<(), AllocError> {
    let alloc = *out.allocator();
    out.push_str(format!(in alloc; "{length}")?.as_str())
}

fn push_part(out: &mut String, image: &[u8], place: &str) -> Result<(), AllocError> {
    let (from, length) = place.split_once(':').unwrap_or((place, ""));
    let from = decimal(from) as usize;
    let to = from.saturating_add(decimal(length) as usize);
    out.push_str(" ")?;
    push_runs(out, image.get(from..to).unwrap_or(&[]))
}

fn push_parts(out: &mut String, image: &[u8], places: &str) -> Result<(), AllocError> {
    push_length(out, image.len())?;
    for place in places.split_whitespace() {
        push_part(out, image, place)?;
    }
    Ok(())
}

/// How long the image is, and bytes of it.
pub fn bytes(out: &mut String, case: &str) -> Result<(), AllocError> {
    let (places, rest) = halves(case);
    let run = run_of(*out.allocator(), rest)?;
    push_parts(out, run.image().unwrap_or(&[]), places)
}

fn push_types(out: &mut String, types: &Types) -> Result<(), AllocError> {
    for i in 0..types.len() {
        declaration(out, types.at(i))?;
        out.push_str("|")?;
    }
    Ok(())
}

/// The declarations that an image states.
pub fn push_read(out: &mut String, image: &[u8]) -> Result<(), AllocError> {
    match types_of(*out.allocator(), image) {
        Ok(types) => push_types(out, &types),
        Err(_) => out.push_str("not read"),
    }
}

/// What is read from the image.
pub fn reread(out: &mut String, case: &str) -> Result<(), AllocError> {
    let run = run_of(*out.allocator(), case)?;
    push_read(out, run.image().unwrap_or(&[]))
}
