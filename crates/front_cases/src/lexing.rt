//! `lex SOURCE` prints the tokens of file 3, `number TEXT` the value of a number.

use case_text::bytes_of;
use midl_lex::{Token, tokens, try_number_value};
use std::alloc::{AllocError, Global};
use wr_base::{Refusal, Stop};

/// What the bytes of a source have, or what refuses them; no source is longer than 4 MiB.
pub fn tokens_of(alloc: Global, file: u32, bytes: &[u8]) -> Result<Vec<Token>, Stop<Refusal>> {
    if bytes.len() > 4_194_304 {
        return Err(Stop::Memory);
    }
    tokens(alloc, file, bytes)
}

/// `FILE:OFFSET CODE`, and behind it the word, if there is one.
fn push_refusal(out: &mut String, refusal: &Refusal) -> Result<(), AllocError> {
    let alloc = *out.allocator();
    let file = refusal.place.file;
    let offset = refusal.place.offset;
    let code = refusal.code.name();
    let word = refusal.word.as_str();
    let blank = if word.is_empty() { "" } else { " " };
    out.push_str(format!(in alloc; "{file}:{offset} {code}{blank}{word}")?.as_str())
}

/// The refusal, or that there is no memory.
pub fn push_stop(out: &mut String, stop: &Stop<Refusal>) -> Result<(), AllocError> {
    match stop {
        Stop::Refused(refusal) => push_refusal(out, refusal),
        Stop::Memory => out.push_str("memory"),
    }
}

fn push_token(out: &mut String, token: &Token) -> Result<(), AllocError> {
    let alloc = *out.allocator();
    let offset = token.offset();
    let kind = token.kind();
    let text = std::str::from_utf8(token.text()).unwrap_or("?");
    out.push_str(format!(in alloc; "{offset} {kind:?} {text}|")?.as_str())
}

fn push_tokens(out: &mut String, found: &[Token]) -> Result<(), AllocError> {
    for token in found {
        push_token(out, token)?;
    }
    Ok(())
}

fn push_lexed(out: &mut String, bytes: &[u8]) -> Result<(), AllocError> {
    match tokens_of(*out.allocator(), 3, bytes) {
        Ok(found) => push_tokens(out, &found),
        Err(stop) => push_stop(out, &stop),
    }
}

/// `OFFSET KIND TEXT|` for each token, or the refusal.
pub fn lex(out: &mut String, case: &str) -> Result<(), AllocError> {
    let bytes = bytes_of(*out.allocator(), case)?;
    push_lexed(out, &bytes)
}

fn push_value(out: &mut String, value: u64) -> Result<(), AllocError> {
    let alloc = *out.allocator();
    out.push_str(format!(in alloc; "{value}")?.as_str())
}

/// The value, or `none` where it is 2^64 or more.
pub fn number(out: &mut String, case: &str) -> Result<(), AllocError> {
    match try_number_value(case.as_bytes()) {
        Some(value) => push_value(out, value),
        None => out.push_str("none"),
    }
}
