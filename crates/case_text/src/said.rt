//! Bytes as an answer spells them.

use std::alloc::AllocError;

fn push_byte(out: &mut String, byte: u8) -> Result<(), AllocError> {
    let alloc = *out.allocator();
    out.push_str(format!(in alloc; "{byte:02x}")?.as_str())
}

// A run of one byte.
fn push_run(out: &mut String, byte: u8, count: u32) -> Result<(), AllocError> {
    let alloc = *out.allocator();
    if count > 8 {
        return out.push_str(format!(in alloc; "[{count}*{byte:02x}]")?.as_str());
    }
    for _ in 0..count {
        push_byte(out, byte)?;
    }
    Ok(())
}

/// Two hexadecimal digits for each byte, but `[COUNT*DIGITS]` for more than eight equal bytes.
pub fn push_runs(out: &mut String, bytes: &[u8]) -> Result<(), AllocError> {
    let mut last = 0u8;
    let mut count = 0u32;
    for byte in bytes {
        if *byte != last {
            push_run(out, last, count)?;
            last = *byte;
            count = 0;
        }
        count = count.saturating_add(1);
    }
    push_run(out, last, count)
}
