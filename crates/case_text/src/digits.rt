//! Numbers and words.

use std::alloc::{AllocError, Global};

/// The value of a hexadecimal digit, or 0.
pub fn digit_value(digit: u8) -> u8 {
    match digit {
        b'0'..=b'9' => digit - b'0',
        b'A'..=b'F' => digit - b'A' + 10,
        _ => 0,
    }
}

/// The number that hexadecimal digits spell, without what is above 32 bits.
pub fn hexadecimal(text: &str) -> u32 {
    let mut number = 0u32;
    for digit in text.as_bytes() {
        number = number
            .wrapping_mul(16)
            .wrapping_add(digit_value(*digit) as u32);
    }
    number
}

/// The number that decimal digits spell, or 0.
pub fn decimal(text: &str) -> u32 {
    text.trim().parse().unwrap_or(0)
}

/// Words with white space between them.
pub fn words_of(alloc: Global, text: &str) -> Result<Vec<String>, AllocError> {
    let mut words = Vec::new(alloc);
    for word in text.split_whitespace() {
        words.push(String::from_str(alloc, word)?)?;
    }
    Ok(words)
}
