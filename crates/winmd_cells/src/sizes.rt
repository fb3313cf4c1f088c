//! The sizes that a tables' stream states (ECMA-335 II.24.2.6), whether or not all of its bytes are there.

ghost use Rattle.std.specs.Prelude.{◌≡◌, ◌≤◌, ◌<◌};
ghost use Rattle.md_schema.specs.Tables as tables;

use md_schema::Sizes;
use md_tables::{bit_count, has_bit};
use winmd_image::number_at;

/// Valid, the eight bytes of the header with a bit for each table.
pub fn valid(stream: &[u8]) -> u64
    ensures { result ≡ tables.valid_of stream.now }
{
    number_at(stream, 8, 4) as u64 + 0x1_0000_0000 * number_at(stream, 12, 4) as u64
}

/// The row count of the table of a number: behind those of the tables before it, or 0 without its bit.
fn row_count(stream: &[u8], valid: u64, n: u32) -> u32
    requires below { n < 45 }
    requires valid { valid ≡ tables.valid_of stream.now }
    ensures { result ≡ tables.count_at stream.now n }
{
    if has_bit(valid, n) {
        number_at(stream, 24 + 4 * bit_count(valid, n) as u64, 4)
    } else {
        0
    }
}

/// The heap bits and the row counts.
pub fn sizes(stream: &[u8]) -> Sizes
    ensures { result ≡ tables.sizes_of stream.now }
{
    let bits = valid(stream);
    let mut rows = [0u32; 45];
    for n in 0..45u32 {
        rows[n as usize] = row_count(stream, bits, n);
    }
    let heaps = number_at(stream, 6, 1) as u64;
    Sizes {
        long_texts: has_bit(heaps, 0),
        long_guids: has_bit(heaps, 1),
        long_blobs: has_bit(heaps, 2),
        rows,
    }
}

/// Where the rows begin: behind the last row count.
pub fn rows_from(stream: &[u8]) -> u64
    ensures value { result ≡ tables.rows_from stream.now }
    ensures small { result ≤ 280 }
{
    24 + 4 * bit_count(valid(stream), 64) as u64
}
