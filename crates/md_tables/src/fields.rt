//! Numbers at offsets.

ghost use Rattle.std.specs.Prelude.{◌≡◌, ◌≤◌, ◌+◌, length};
ghost use Rattle.md_bytes.specs.Bytes.{number_at};
ghost use Rattle.md_schema.specs.Tables.{valid_of};

use md_bytes::number;

/// The number of up to four bytes at an offset.
pub fn field(bytes: &[u8], at: usize, width: usize) -> u32
    requires few { width ≤ 4 }
    requires within { at + width ≤ length bytes.now }
    ensures { result ≡ number_at bytes.now at width }
{
    number(&bytes[at..at + width])
}

/// Valid, the eight bytes of the header with a bit for each table.
pub fn valid(bytes: &[u8]) -> u64
    requires { 24 ≤ length bytes.now }
    ensures { result ≡ valid_of bytes.now }
{
    field(bytes, 8, 4) as u64 + 0x1_0000_0000 * field(bytes, 12, 4) as u64
}
