//! `calls STORE;ERR;STEP & STEP ..;NAME=SOURCE|NAME=SOURCE ..` runs the steps one after the other over one store, and prints what each answers and then what stands
//! on err; the calls of the store and of err of these numbers fail. A step is the words of a call, which answers its status, or one of these, which ask the store for nothing:
//!
//!     length NAME          how many bytes the file has, or `none`
//!     same NAME NAME       `same` where both files are there and have the same bytes, else `other`
//!     states NAME          the declarations that the image states, each with `|` behind it, or `not read`
//!     part FROM TO NAME .. writes an image TO of the declarations of these full names that the image FROM states; `part`, or `none` where FROM isn't read

use crate::images::push_read;
use crate::parts::part_of;
use crate::tool::{Run, call, outside};
use case_text::{halves, words_of};
use std::alloc::AllocError;

fn word_at(words: &[String], place: usize) -> &str {
    match words.get(place) {
        Some(word) => word.as_str(),
        None => "",
    }
}

fn push_length(out: &mut String, file: Option<&[u8]>) -> Result<(), AllocError> {
    let alloc = *out.allocator();
    match file {
        Some(bytes) => {
            let length = bytes.len();
            out.push_str(format!(in alloc; "{length}")?.as_str())
        }
        None => out.push_str("none"),
    }
}

fn are_same(one: Option<&[u8]>, other: Option<&[u8]>) -> bool {
    match (one, other) {
        (Some(one), Some(other)) => *one == *other,
        _ => false,
    }
}

fn push_same(out: &mut String, run: &Run, words: &[String]) -> Result<(), AllocError> {
    let one = run.file(word_at(words, 1));
    let other = run.file(word_at(words, 2));
    out.push_str(if are_same(one, other) {
        "same"
    } else {
        "other"
    })
}

fn push_part(out: &mut String, run: &mut Run, words: &[String]) -> Result<(), AllocError> {
    let alloc = *out.allocator();
    let image = run.file(word_at(words, 1)).unwrap_or(&[]);
    match part_of(alloc, image, words)? {
        Some(bytes) => {
            run.store.files.insert(alloc, word_at(words, 2), bytes)?;
            out.push_str("part")
        }
        None => out.push_str("none"),
    }
}

fn push_call(out: &mut String, run: &mut Run, words: &[String]) -> Result<(), AllocError> {
    let alloc = *out.allocator();
    call(alloc, run, words);
    let status = run.status;
    out.push_str(format!(in alloc; "{status}")?.as_str())
}

fn push_step(out: &mut String, run: &mut Run, words: &[String]) -> Result<(), AllocError> {
    match word_at(words, 0) {
        "length" => push_length(out, run.file(word_at(words, 1))),
        "same" => push_same(out, run, words),
        "states" => push_read(out, run.file(word_at(words, 1)).unwrap_or(&[])),
        "part" => push_part(out, run, words),
        _ => push_call(out, run, words),
    }
}

fn push_steps(out: &mut String, run: &mut Run, steps: &str) -> Result<(), AllocError> {
    let alloc = *out.allocator();
    for step in steps.split('&') {
        let words = words_of(alloc, step)?;
        push_step(out, run, &words)?;
        out.push_str(" ")?;
    }
    Ok(())
}

fn push_said(out: &mut String, run: &Run) -> Result<(), AllocError> {
    let alloc = *out.allocator();
    out.push_str(format!(in alloc; "{:?}", run.said())?.as_str())
}

/// What each step answers, and what stands on err.
pub fn calls(out: &mut String, case: &str) -> Result<(), AllocError> {
    let (failing, rest) = halves(case);
    let (mute, rest) = halves(rest);
    let (steps, files) = halves(rest);
    let mut run = outside(*out.allocator(), failing, mute, files)?;
    push_steps(out, &mut run, steps)?;
    push_said(out, &run)
}
