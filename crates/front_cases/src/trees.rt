//! `tree SOURCE` prints the tree of file 4 or its first fault; `ends SOURCE` and `ids SOURCE` print a line for each of its tokens, the source
//! being cut before it, or an id standing there.

use crate::lexing::{push_stop, tokens_of};
use crate::tree_text::file_text;
use case_text::bytes_of;
use midl_lex::Token;
use midl_parse::parse;
use midl_tree::File;
use std::alloc::{AllocError, Global};
use wr_base::{Refusal, Stop};

fn file_of(alloc: Global, bytes: &[u8]) -> Result<File, Stop<Refusal>> {
    parse(alloc, 4, &tokens_of(alloc, 4, bytes)?)
}

fn push_answer(out: &mut String, bytes: &[u8]) -> Result<(), AllocError> {
    match file_of(*out.allocator(), bytes) {
        Ok(file) => file_text(out, &file),
        Err(stop) => push_stop(out, &stop),
    }
}

/// The tree in short, or the refusal.
pub fn tree(out: &mut String, case: &str) -> Result<(), AllocError> {
    let bytes = bytes_of(*out.allocator(), case)?;
    push_answer(out, &bytes)
}

// The bytes before a token, and a text behind them.
fn cut(bytes: &mut Vec<u8>, before: &[u8], behind: &str) -> Result<(), AllocError> {
    bytes.extend_from_slice(before)?;
    bytes.extend_from_slice(behind.as_bytes())
}

// The answer to them, on a line of its own.
fn push_cut(out: &mut String, before: &[u8], behind: &str) -> Result<(), AllocError> {
    let mut bytes = Vec::new(*out.allocator());
    cut(&mut bytes, before, behind)?;
    out.push_str("\n")?;
    push_answer(out, &bytes)
}

fn push_cuts(
    out: &mut String,
    bytes: &[u8],
    found: &[Token],
    behind: &str,
) -> Result<(), AllocError> {
    for token in found {
        let before = bytes.get(..token.offset() as usize).unwrap_or(bytes);
        push_cut(out, before, behind)?;
    }
    Ok(())
}

fn push_all_cuts(out: &mut String, bytes: &[u8], behind: &str) -> Result<(), AllocError> {
    match tokens_of(*out.allocator(), 4, bytes) {
        Ok(found) => push_cuts(out, bytes, &found, behind),
        Err(stop) => push_stop(out, &stop),
    }
}

fn cuts(out: &mut String, case: &str, behind: &str) -> Result<(), AllocError> {
    let bytes = bytes_of(*out.allocator(), case)?;
    push_all_cuts(out, &bytes, behind)
}

/// What the source gives where it ends before each token, on a line of its own behind an empty one.
pub fn ends(out: &mut String, case: &str) -> Result<(), AllocError> {
    cuts(out, case, "")
}

/// What it gives where an id stands for each token and all behind it.
pub fn ids(out: &mut String, case: &str) -> Result<(), AllocError> {
    cuts(out, case, " 96369f54-8eb6-48f0-abce-c1b211e627c3")
}
