//! `sources FAILING;WORDS;NAME=SOURCE|NAME=SOURCE ..` prints the names of the files of a set, each with `|` behind it, or what stops it. The store's
//! calls of the numbers FAILING fail.

use crate::files::store_of;
use case_text::{halves, words_of};
use source_set::{SourceStop, Text, refusal_line, sources};
use std::alloc::AllocError;
use wr_base::Refusal;
use wr_outside::MemoryStore;

fn push_names(out: &mut String, texts: &[Text]) -> Result<(), AllocError> {
    for text in texts {
        out.push_str(text.name.as_str())?;
        out.push_str("|")?;
    }
    Ok(())
}

fn push_fault(out: &mut String, name: &str, code: &str) -> Result<(), AllocError> {
    out.push_str(name)?;
    out.push_str(": ")?;
    out.push_str(code)
}

fn push_refusal(out: &mut String, text: &Text, refusal: &Refusal) -> Result<(), AllocError> {
    let alloc = *out.allocator();
    let line = refusal_line(alloc, text.name.as_str(), &text.bytes, refusal)?;
    out.push_str(line.as_str().trim_end_matches('\n'))
}

// What stopped the set, as its line on err is, without its end.
fn push_stop(out: &mut String, stop: &SourceStop) -> Result<(), AllocError> {
    match stop {
        SourceStop::TooMany(name) => push_fault(out, name.as_str(), "TooMany"),
        SourceStop::Missing(name) => push_fault(out, name.as_str(), "Missing"),
        SourceStop::TooLong(name) => push_fault(out, name.as_str(), "TooLong"),
        SourceStop::ReadFault(name) => push_fault(out, name.as_str(), "ReadFault"),
        SourceStop::Refused(text, refusal) => push_refusal(out, text, refusal),
        SourceStop::Memory => out.push_str("memory"),
    }
}

fn push_set(out: &mut String, words: &[String], store: &mut MemoryStore) -> Result<(), AllocError> {
    match sources(*out.allocator(), store, words) {
        Ok(read) => push_names(out, &read.texts),
        Err(stop) => push_stop(out, &stop),
    }
}

/// The names of the files that are read, or the line of what stops the set.
pub fn set(out: &mut String, case: &str) -> Result<(), AllocError> {
    let alloc = *out.allocator();
    let (failing, rest) = halves(case);
    let (words, files) = halves(rest);
    let words = words_of(alloc, words)?;
    let mut store = store_of(alloc, failing, files)?;
    push_set(out, &words, &mut store)
}
