//! What an answer is put together from.

use std::alloc::AllocError;

/// Adds each text.
pub fn push_all(out: &mut String, texts: &[&str]) -> Result<(), AllocError> {
    for text in texts {
        out.push_str(text)?;
    }
    Ok(())
}
