//! Rows as they follow each other, from an offset on.

ghost use Rattle.std.specs.Prelude.{◌≡◌, ◌≤◌, ◌+◌, ◌*◌, ℕ, IfOk, get_or, length, map};
ghost use Rattle.md_bytes.specs.Bytes.{total};
ghost use Rattle.md_schema.specs.Tables.{table_size, widths_of};
ghost use Rattle.md_schema.specs.Widths.{count_of};
ghost use Rattle.md_tables.specs.Lists.{cells_in, lists_in};
ghost use Rattle.md_tables.specs.Reading.{numbers_at, rows_at, tables_at};

use crate::cells::{Cells, widths};
use crate::fields::field;
use crate::header::size_of_table;
use md_schema::{Sizes, Table, columns};
use std::alloc::{AllocError, Global};

/// A row, and where it ends.
#[derive(Drop)]
pub struct Part {
    pub value: Cells,
    pub end: usize,
}

/// The row at an offset, of up to nine cells of up to four bytes.
pub fn read_row(widths: &[u32], bytes: &[u8], start: usize) -> Part
    requires few { length widths.now ≤ 9 }
    requires narrow { (i : ℕ) → get_or widths.now i 0 ≤ 4 }
    requires within { start + total widths.now ≤ length bytes.now }
    ensures cells { result.value.items ≡ numbers_at bytes.now start widths.now }
    ensures end { result.end ≡ start + total widths.now }
{
    let mut value = Cells::new();
    let mut end = start;
    for width in widths {
        let size = *width as usize;
        value.push(field(bytes, end, size));
        end += size;
    }
    Part { value, end }
}

/// So many rows from an offset on.
pub fn read_rows(
    alloc: Global,
    widths: &[u32],
    count: u32,
    bytes: &[u8],
    start: usize,
) -> Result<Vec<Cells>, AllocError>
    requires few { length widths.now ≤ 9 }
    requires narrow { (i : ℕ) → get_or widths.now i 0 ≤ 4 }
    requires within { start + count * total widths.now ≤ length bytes.now }
    ensures { IfOk result (λ rows. cells_in rows.items ≡ rows_at bytes.now start widths.now count) }
{
    let mut rows = Vec::with_capacity(alloc, count as usize)?;
    let mut at = start;
    for _ in 0..count {
        let row = read_row(widths, bytes, at);
        rows.push(row.value)?;
        at = row.end;
    }
    Ok(rows)
}

/// The rows of several tables, from where they begin.
pub fn read_all(
    alloc: Global,
    sizes: &Sizes,
    order: &[Table],
    bytes: &[u8],
    start: usize,
) -> Result<Vec<Vec<Cells>>, AllocError>
    requires { start + total (map (table_size sizes.now) order.now) ≤ length bytes.now }
    ensures { IfOk result (λ tables. lists_in tables.items ≡ tables_at bytes.now sizes.now start order.now) }
{
    let mut tables = Vec::new(alloc);
    let mut at = start;
    for table in order {
        let rows = read_table(alloc, sizes, *table, bytes, at)?;
        tables.push(rows)?;
        at += size_of_table(sizes, *table) as usize;
    }
    Ok(tables)
}

fn read_table(
    alloc: Global,
    sizes: &Sizes,
    table: Table,
    bytes: &[u8],
    start: usize,
) -> Result<Vec<Cells>, AllocError>
    requires { start + table_size sizes.now table ≤ length bytes.now }
    ensures { IfOk result (λ rows. cells_in rows.items ≡ rows_at bytes.now start (widths_of sizes.now table) (count_of sizes.now table)) }
{
    let widths = widths(sizes, columns(table));
    read_rows(alloc, &widths, sizes.count(table), bytes, start)
}
