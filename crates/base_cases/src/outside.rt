//! The outside in memory: `calls NUMBER` prints which of six calls of a store fail, where the call of that number does; `puts NUMBER;TEXT ..` which of the texts
//! aren't put; `whole NAME;LIMIT;NUMBER` what a file is read as; `written NUMBER` what a file is then; `safe TEXT ..` what is read from a store that never fails.
//! Each store holds the file `a` with the bytes `abc`.

use crate::failing::numbers_of;
use case_text::{decimal, halves};
use std::alloc::{AllocError, Global};
use wr_outside::{
    MemorySink, MemoryStore, NamedFiles, ReadRefusal, SafeSink, SafeStore, Sink, Store, put_all,
    read_whole, write_whole,
};

fn files_of_a(alloc: Global) -> Result<NamedFiles, AllocError> {
    let mut files = NamedFiles::new(alloc);
    let bytes = Vec::from_slice(alloc, b"abc")?;
    files.insert(alloc, "a", bytes)?;
    Ok(files)
}

fn store_of_a(alloc: Global, failing: &str) -> Result<MemoryStore, AllocError> {
    let failing = numbers_of(alloc, failing)?;
    let files = files_of_a(alloc)?;
    Ok(MemoryStore::new(alloc, files, failing))
}

fn held<'a>(files: &'a NamedFiles, name: &str) -> &'a str {
    match files.get(name) {
        Some(bytes) => std::str::from_utf8(bytes).unwrap_or("?"),
        None => "none",
    }
}

fn failing_calls(store: &mut MemoryStore) -> [bool; 6] {
    let mut into = [0; 4];
    [
        store.size("a").is_err(),
        store.read_at("a", 1, &mut into).is_err(),
        store.read_at("b", 0, &mut into).is_err(),
        store.create("a").is_err(),
        store.append("a", b"x").is_err(),
        store.append("b", b"yz").is_err(),
    ]
}

fn push_calls(out: &mut String, store: &mut MemoryStore) -> Result<(), AllocError> {
    let alloc = *out.allocator();
    let failed = failing_calls(store);
    let faults = store.failures.faults;
    let a = held(&store.files, "a");
    let b = held(&store.files, "b");
    out.push_str(format!(in alloc; "{failed:?} {faults} {a:?} {b:?}")?.as_str())
}

/// Whether each of six calls fails, how many faults are counted, and what `a` and `b` hold.
pub fn calls(out: &mut String, case: &str) -> Result<(), AllocError> {
    let mut store = store_of_a(*out.allocator(), case)?;
    push_calls(out, &mut store)
}

fn push_puts<S: Sink>(out: &mut String, sink: &mut S, texts: &str) -> Result<(), AllocError> {
    for text in texts.split_whitespace() {
        let is_put = put_all(sink, text.as_bytes()).is_ok();
        out.push_str(if is_put { "put " } else { "not " })?;
    }
    Ok(())
}

fn push_held(out: &mut String, bytes: &[u8]) -> Result<(), AllocError> {
    out.push_str(std::str::from_utf8(bytes).unwrap_or("?"))
}

fn push_sink(out: &mut String, sink: &mut MemorySink, texts: &str) -> Result<(), AllocError> {
    push_puts(out, sink, texts)?;
    push_held(out, &sink.bytes)
}

/// Whether each text is put, and what the sink then holds.
pub fn puts(out: &mut String, case: &str) -> Result<(), AllocError> {
    let alloc = *out.allocator();
    let (failing, texts) = halves(case);
    let mut sink = MemorySink::new(alloc, numbers_of(alloc, failing)?);
    push_sink(out, &mut sink, texts)
}

fn push_text(out: &mut String, bytes: &[u8]) -> Result<(), AllocError> {
    let alloc = *out.allocator();
    out.push_str(format!(in alloc; "{:?}", std::str::from_utf8(bytes))?.as_str())
}

fn push_long(out: &mut String, size: u64) -> Result<(), AllocError> {
    let alloc = *out.allocator();
    out.push_str(format!(in alloc; "TooLong {size}")?.as_str())
}

fn push_read<S: Store>(
    out: &mut String,
    store: &mut S,
    name: &str,
    limit: u32,
) -> Result<(), AllocError> {
    match read_whole(*out.allocator(), store, name, limit as u64) {
        Ok(bytes) => push_text(out, &bytes),
        Err(ReadRefusal::Missing) => out.push_str("Missing"),
        Err(ReadRefusal::TooLong(size)) => push_long(out, size),
        Err(ReadRefusal::Fault) => out.push_str("Fault"),
        Err(ReadRefusal::Memory) => out.push_str("Memory"),
    }
}

/// What the file is read as, or why it isn't.
pub fn whole(out: &mut String, case: &str) -> Result<(), AllocError> {
    let (name, rest) = halves(case);
    let (limit, failing) = halves(rest);
    let mut store = store_of_a(*out.allocator(), failing)?;
    push_read(out, &mut store, name, decimal(limit))
}

fn push_written(out: &mut String, store: &mut MemoryStore) -> Result<(), AllocError> {
    let alloc = *out.allocator();
    let is_written = write_whole(store, "a", b"new").is_ok();
    let a = held(&store.files, "a");
    out.push_str(format!(in alloc; "{is_written} {a:?}")?.as_str())
}

/// Whether `new` is written to the file, and what it then holds.
pub fn written(out: &mut String, case: &str) -> Result<(), AllocError> {
    let mut store = store_of_a(*out.allocator(), case)?;
    push_written(out, &mut store)
}

fn push_safe(out: &mut String, store: &mut SafeStore, text: &str) -> Result<(), AllocError> {
    let is_written = write_whole(store, "a", text.as_bytes()).is_ok();
    let limit = text.len().min(1000) as u32;
    out.push_str(if is_written { "true " } else { "false " })?;
    push_read(out, store, "a", limit)?;
    out.push_str("|")
}

fn push_all_safe(out: &mut String, store: &mut SafeStore, case: &str) -> Result<(), AllocError> {
    for text in case.split(' ') {
        push_safe(out, store, text)?;
    }
    push_safe(out, store, "")
}

fn push_safe_sink(out: &mut String, sink: &mut SafeSink, case: &str) -> Result<(), AllocError> {
    push_puts(out, sink, case)?;
    push_held(out, &sink.bytes)
}

/// Whether each text, the empty one last, is written to a store that never fails, and what is then read; and what a sink that never fails holds.
pub fn safe(out: &mut String, case: &str) -> Result<(), AllocError> {
    let alloc = *out.allocator();
    let mut store = SafeStore::new(alloc, NamedFiles::new(alloc));
    push_all_safe(out, &mut store, case)?;
    let mut sink = SafeSink::new(alloc);
    push_safe_sink(out, &mut sink, case)
}
