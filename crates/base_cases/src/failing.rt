//! The calls that fail in a case.

use case_text::decimal;
use std::alloc::{AllocError, Global};

/// The numbers of the calls that fail.
pub fn numbers_of(alloc: Global, text: &str) -> Result<Vec<u64>, AllocError> {
    let mut numbers = Vec::new(alloc);
    for word in text.split_whitespace() {
        numbers.push(decimal(word) as u64)?;
    }
    Ok(numbers)
}
