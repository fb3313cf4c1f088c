//! The files and failing calls that a case spells.

use case_text::bytes_of;
use std::alloc::{AllocError, Global};
use wr_outside::{MemoryStore, NamedFiles};

/// The numbers of the calls that fail.
pub fn numbers_of(alloc: Global, text: &str) -> Result<Vec<u64>, AllocError> {
    let mut numbers = Vec::new(alloc);
    for word in text.split_whitespace() {
        numbers.push(word.parse().unwrap_or(0))?;
    }
    Ok(numbers)
}

/// `NAME=SOURCE|NAME=SOURCE ..`
fn files_of(alloc: Global, text: &str) -> Result<NamedFiles, AllocError> {
    let mut files = NamedFiles::new(alloc);
    for part in text.split('|') {
        if let Some((name, source)) = part.split_once('=') {
            files.insert(alloc, name, bytes_of(alloc, source)?)?;
        }
    }
    Ok(files)
}

/// A store of these files whose calls of these numbers fail.
pub fn store_of(alloc: Global, failing: &str, files: &str) -> Result<MemoryStore, AllocError> {
    let failing = numbers_of(alloc, failing)?;
    Ok(MemoryStore::new(alloc, files_of(alloc, files)?, failing))
}
