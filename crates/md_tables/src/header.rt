//! The header of the tables' stream.

ghost use Rattle.std.specs.Prelude.{◌≡◌, ◌≤◌, ◌+◌, ◌*◌, ◌<◌, ◌^◌, IfOk, IfErr, None, Some, length, map};
ghost use Rattle.md_bytes.specs.Bytes.{total};
ghost use Rattle.md_schema.specs.Tables.{bits_set, count_at, rows_end, rows_from, sizes_of, table_size, valid_of};
ghost use Rattle.md_schema.specs.Widths.{width_of};
ghost use Rattle.md_tables.specs.Faults.{header_fault};

use crate::bits::{bit_count, has_bit, has_unknown};
use crate::fields::{field, valid};
use md_schema::{Column, ImageFault, ImageKind, Sizes, TABLES, Table, columns, width};

/// The sizes that the header states, and where the rows begin.
#[derive(Clone, Copy, Debug)]
pub struct Header {
    pub sizes: Sizes,
    pub from: usize,
}

/// The header of a stream whose rows fit in it. Refused where the header is cut, Valid has a bit of no table, or the rows end past the stream.
pub fn read_header(bytes: &[u8]) -> Result<Header, ImageFault>
    ensures ok { IfOk result (λ header. header_fault bytes.now ≡ None) }
    ensures sizes { IfOk result (λ header. header.sizes ≡ sizes_of bytes.now) }
    ensures from { IfOk result (λ header. header.from ≡ rows_from bytes.now) }
    ensures low { IfOk result (λ header. header.from < 2 ^ 32) }
    ensures within { IfOk result (λ header. rows_end bytes.now ≤ length bytes.now) }
    ensures refused { IfErr result (λ e. header_fault bytes.now ≡ Some e) }
{
    let short = ImageFault {
        kind: ImageKind::ShortTable,
        offset: bytes.len() as u64,
    };
    if bytes.len() < 24 {
        return Err(short);
    }
    let bits = valid(bytes);
    if has_unknown(bits) {
        return Err(ImageFault {
            kind: ImageKind::UnknownTable,
            offset: 8,
        });
    }
    let from = 24 + 4 * bit_count(bits, 64) as usize;
    if bytes.len() < from {
        return Err(short);
    }
    let sizes = read_sizes(bytes, bits);
    if size_of_tables(&sizes, &TABLES) > (bytes.len() - from) as u64 {
        return Err(short);
    }
    Ok(Header { sizes, from })
}

/// The heap bits and the row counts.
fn read_sizes(bytes: &[u8], valid: u64) -> Sizes
    requires valid { valid ≡ valid_of bytes.now }
    requires within { 24 + 4 * bits_set 64 valid ≤ length bytes.now }
    ensures { result ≡ sizes_of bytes.now }
{
    let mut rows = [0u32; 45];
    for n in 0..45u32 {
        rows[n as usize] = row_count(bytes, valid, n);
    }
    let heaps = field(bytes, 6, 1) as u64;
    Sizes {
        long_texts: has_bit(heaps, 0),
        long_guids: has_bit(heaps, 1),
        long_blobs: has_bit(heaps, 2),
        rows,
    }
}

/// The row count of the table of a number: behind those of the tables before it, or 0 without its bit.
fn row_count(bytes: &[u8], valid: u64, n: u32) -> u32
    requires below { n < 45 }
    requires valid { valid ≡ valid_of bytes.now }
    requires within { 24 + 4 * bits_set 64 valid ≤ length bytes.now }
    ensures { result ≡ count_at bytes.now n }
{
    if has_bit(valid, n) {
        field(bytes, 24 + 4 * bit_count(valid, n) as usize, 4)
    } else {
        0
    }
}

/// How many bytes a row of these columns has.
pub fn row_width(sizes: &Sizes, columns: &[Column]) -> u64
    requires { length columns.now ≤ 9 }
    ensures value { result ≡ total (map (width_of sizes.now) columns.now) }
    ensures small { result ≤ 36 }
{
    let mut sum = 0;
    for column in columns {
        sum += width(sizes, *column) as u64;
    }
    sum
}

/// How many bytes the rows of a table have.
pub fn size_of_table(sizes: &Sizes, table: Table) -> u64
    ensures value { result ≡ table_size sizes.now table }
    ensures small { result < 2 ^ 38 }
{
    sizes.count(table) as u64 * row_width(sizes, columns(table))
}

/// How many bytes the rows of up to 38 tables have.
pub fn size_of_tables(sizes: &Sizes, order: &[Table]) -> u64
    requires { length order.now ≤ 38 }
    ensures value { result ≡ total (map (table_size sizes.now) order.now) }
    ensures small { result < 2 ^ 44 }
{
    let mut sum = 0;
    for table in order {
        sum += size_of_table(sizes, *table);
    }
    sum
}
