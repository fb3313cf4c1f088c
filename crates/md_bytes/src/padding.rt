//! Zeros that fill bytes up to a multiple of four.

ghost use Rattle.std.specs.Prelude.{◌≡◌, ◌++◌, OnOk};
ghost use Rattle.md_bytes.specs.Padding.{padded, zeros};

use std::alloc::AllocError;

/// Writes zeros at the end of `out`.
pub fn put_zeros(out: &mut Vec<u8>, count: u64) -> Result<(), AllocError>
    ensures { OnOk result (out.new.items ≡ out.old.items ++ zeros count) }
{
    for _ in 0..count {
        out.push(0)?;
    }
    Ok(())
}

/// Writes bytes at the end of `out`, and zeros behind them up to a multiple of four.
pub fn put_padded(out: &mut Vec<u8>, bytes: &[u8]) -> Result<(), AllocError>
    ensures { OnOk result (out.new.items ≡ out.old.items ++ padded bytes.now) }
{
    let length = bytes.len() as u64;
    out.extend_from_slice(bytes)?;
    put_zeros(out, (length + 3) / 4 * 4 - length)
}
