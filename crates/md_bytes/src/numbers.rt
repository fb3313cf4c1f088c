//! Numbers as bytes, low byte first.

ghost use Rattle.std.specs.Prelude.{◌≡◌, ◌≤◌, ◌++◌, OnOk, length};
ghost use Rattle.md_bytes.specs.Bytes.{le};
ghost use Rattle.md_bytes.specs.Bytes as bytes_as;
ghost use Rattle.md_bytes.specs.Padding.{words};

use std::alloc::AllocError;

/// Writes a number at the end of `out`, low byte first, in `width` bytes; what doesn't fit them is left away.
/// After want of memory some of the bytes may be written.
pub fn put_number(out: &mut Vec<u8>, width: u32, n: u64) -> Result<(), AllocError>
    ensures { OnOk result (out.new.items ≡ out.old.items ++ le width n) }
{
    let mut rest = n;
    for _ in 0..width {
        out.push((rest % 256) as u8)?;
        rest /= 256;
    }
    Ok(())
}

/// Writes numbers of one width at the end of `out`.
pub fn put_numbers(out: &mut Vec<u8>, width: u32, numbers: &[u64]) -> Result<(), AllocError>
    ensures { OnOk result (out.new.items ≡ out.old.items ++ words width numbers.now) }
{
    for n in numbers {
        put_number(out, width, *n)?;
    }
    Ok(())
}

/// The number that up to four bytes are, low byte first.
pub fn number(bytes: &[u8]) -> u32
    requires { length bytes.now ≤ 4 }
    ensures { result ≡ bytes_as.number bytes.now }
{
    match bytes {
        [] => 0,
        [a] => *a as u32,
        [a, b] => *a as u32 + 256 * (*b as u32),
        [a, b, c] => *a as u32 + 256 * (*b as u32 + 256 * (*c as u32)),
        [a, b, c, d, ..] => {
            *a as u32 + 256 * (*b as u32 + 256 * (*c as u32 + 256 * (*d as u32)))
        }
    }
}
