//! `tool STORE;ERR;WORDS;NAME=SOURCE|NAME=SOURCE ..` prints the status, whether `a.winmd` is there, and what stands on err; the calls of the store and of err of
//! these numbers fail.

use crate::files::{numbers_of, store_of};
use case_text::{halves, words_of};
use std::alloc::{AllocError, Global};
use wr_outside::{MemorySink, MemoryStore};
use wr_tools::winrt_tool;

/// What calls read and write, and the status of the last one.
#[derive(Drop)]
pub struct Run {
    pub status: u8,
    pub store: MemoryStore,
    pub out: MemorySink,
    err: MemorySink,
}

impl Run {
    /// A file as the calls left it.
    pub fn file(&self, name: &str) -> Option<&[u8]> {
        self.store.files.get(name)
    }

    /// The image that the call left.
    pub fn image(&self) -> Option<&[u8]> {
        self.file("a.winmd")
    }

    /// What stands on err.
    pub fn said(&self) -> &str {
        std::str::from_utf8(&self.err.bytes).unwrap_or("?")
    }
}

/// Calls the tool with these words.
pub fn call(alloc: Global, run: &mut Run, words: &[String]) {
    run.status = winrt_tool(alloc, words, &mut run.store, &mut run.out, &mut run.err);
}

/// The files that a case spells, before the first call.
pub fn outside(alloc: Global, failing: &str, mute: &str, files: &str) -> Result<Run, AllocError> {
    let store = store_of(alloc, failing, files)?;
    let mute = numbers_of(alloc, mute)?;
    Ok(Run {
        status: 0,
        store,
        out: MemorySink::new(alloc, Vec::new(alloc)),
        err: MemorySink::new(alloc, mute),
    })
}

/// A call with the words, files and failing calls that a case spells.
pub fn run_of(alloc: Global, case: &str) -> Result<Run, AllocError> {
    let (failing, rest) = halves(case);
    let (mute, rest) = halves(rest);
    let (words, files) = halves(rest);
    let words = words_of(alloc, words)?;
    let mut made = outside(alloc, failing, mute, files)?;
    call(alloc, &mut made, &words);
    Ok(made)
}

fn push_run(out: &mut String, run: &Run) -> Result<(), AllocError> {
    let alloc = *out.allocator();
    let image = match run.image() {
        Some(_) => "image",
        None => "none",
    };
    out.push_str(format!(in alloc; "{} {image} {:?}", run.status, run.said())?.as_str())
}

/// The status, whether there is an image, and what stands on err.
pub fn tool(out: &mut String, case: &str) -> Result<(), AllocError> {
    let run = run_of(*out.allocator(), case)?;
    push_run(out, &run)
}
