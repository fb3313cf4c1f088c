//! The tables' stream as bytes.

ghost use Rattle.std.specs.Prelude.{◌≡◌, ◌≤◌, ◌<◌, ◌^◌, ◌++◌, ℕ, [], ◌+◌, OnOk, IfOk, None, length, map, get_or, List};
ghost use Rattle.std.specs.List.{flat_map, AllByRecursion};
ghost use Rattle.md_bytes.specs.Bytes.{le};
ghost use Rattle.md_schema.specs.declared.table.Table.{Table};
ghost use Rattle.md_schema.specs.Schema.{place_of};
ghost use Rattle.md_schema.specs.Tables.{raw, widths_of};
ghost use Rattle.md_schema.specs.Written.{flag, row_counts, rows_bytes, table_bytes, RowFits};
ghost use Rattle.md_tables.specs.Faults.{disorder, fault_of, row_lists};
ghost use Rattle.md_tables.specs.Head.{head_bytes};
ghost use Rattle.md_tables.specs.Lists.{lists_in};
ghost use Rattle.md_tables.specs.Numbers.{count_or};
ghost use Rattle.md_tables.specs.Rows.{rows_in, sizes_in};

use crate::bits::valid_bits;
use crate::cells::{Cells, widths};
use crate::numbers::{place, table_at};
use crate::put::put_rows;
use crate::set::TableSet;
use md_bytes::put_number;
use md_schema::{Sizes, TABLES, Table, columns};
use std::alloc::{AllocError, Global};

/// Which tables are sorted, as it is written.
const SORTED: u64 = 0x0000_1600_3301_FA00;

/// The stream of tables of a set, without the zeros that fill it up (ECMA-335 II.24.2.6). A table has fewer than 2^24 rows,
/// each cell fits its column, and no list of rows runs backwards or past the end of its table.
pub fn write_tables(alloc: Global, set: &TableSet) -> Result<Vec<u8>, AllocError>
    requires few { (table : Table) → length (rows_in set.now table) < 2 ^ 24 }
    requires fits { (table : Table) → AllByRecursion (RowFits (widths_of (sizes_in set.now) table)) (rows_in set.now table) }
    requires ordered { disorder (rows_in set.now) row_lists ≡ None }
    ensures bytes { IfOk result (λ bytes. bytes.items ≡ table_bytes (sizes_in set.now) (rows_in set.now)) }
    ensures rows { IfOk result (λ bytes. (table : Table) → raw bytes.items table ≡ rows_in set.now table) }
    ensures faultless { IfOk result (λ bytes. fault_of bytes.items ≡ None) }
{
    let bytes = stream(alloc, set)?;
    Ok(bytes)
}

/// The stream of any set with fewer than 2^24 rows a table; what doesn't fit its column is cut.
fn stream(alloc: Global, set: &TableSet) -> Result<Vec<u8>, AllocError>
    requires { (table : Table) → length (rows_in set.now table) < 2 ^ 24 }
    ensures { IfOk result (λ bytes. bytes.items ≡ table_bytes (sizes_in set.now) (rows_in set.now)) }
{
    let sizes = sizes(set);
    let mut out = Vec::new(alloc);
    put_head(&mut out, heap_bits(&sizes), valid_bits(&sizes.rows))?;
    put_counts(&mut out, &sizes.rows)?;
    put_tables(&mut out, &sizes, &set.tables, &TABLES)?;
    Ok(out)
}

/// The heap bits of a set, and how many rows each table has.
pub fn sizes(set: &TableSet) -> Sizes
    requires { (table : Table) → length (rows_in set.now table) < 2 ^ 24 }
    ensures { result ≡ sizes_in set.now }
{
    let mut rows = [0u32; 45];
    for n in 0..45usize {
        rows[n] = count(set, table_at(n));
    }
    Sizes {
        long_texts: set.long_texts,
        long_guids: set.long_guids,
        long_blobs: set.long_blobs,
        rows,
    }
}

fn count(set: &TableSet, choice: Option<Table>) -> u32
    requires { (table : Table) → length (rows_in set.now table) < 2 ^ 24 }
    ensures { result ≡ count_or (rows_in set.now) choice }
{
    match choice {
        Some(table) => set.count(table) as u32,
        None => 0,
    }
}

fn put_head(out: &mut Vec<u8>, heaps: u8, valid: u64) -> Result<(), AllocError>
    ensures { OnOk result (out.new.items ≡ out.old.items ++ head_bytes heaps valid) }
{
    out.extend_from_slice(&[0, 0, 0, 0, 2, 0, heaps, 1])?;
    put_number(out, 8, valid)?;
    put_number(out, 8, SORTED)?;
    Ok(())
}

fn heap_bits(sizes: &Sizes) -> u8
    ensures { result ≡ flag sizes.now.long_texts 1 + flag sizes.now.long_guids 2 + flag sizes.now.long_blobs 4 }
{
    (if sizes.long_texts { 1 } else { 0 })
        + (if sizes.long_guids { 2 } else { 0 })
        + (if sizes.long_blobs { 4 } else { 0 })
}

fn put_counts(out: &mut Vec<u8>, rows: &[u32]) -> Result<(), AllocError>
    ensures { OnOk result (out.new.items ≡ out.old.items ++ row_counts rows.now) }
{
    for n in 0..rows.len() {
        if rows[n] > 0 {
            put_number(out, 4, rows[n] as u64)?;
        }
    }
    Ok(())
}

fn put_tables(
    out: &mut Vec<u8>,
    sizes: &Sizes,
    tables: &[Vec<Cells>],
    order: &[Table],
) -> Result<(), AllocError>
    requires { length tables.now ≡ 38 }
    ensures { OnOk result (out.new.items
        ≡ out.old.items ++ flat_map (rows_bytes sizes.now (λ t. get_or (lists_in tables.now) (place_of t) [])) order.now) }
{
    for table in order {
        put_table(out, sizes, tables, *table)?;
    }
    Ok(())
}

fn put_table(
    out: &mut Vec<u8>,
    sizes: &Sizes,
    tables: &[Vec<Cells>],
    table: Table,
) -> Result<(), AllocError>
    requires { length tables.now ≡ 38 }
    ensures { OnOk result (out.new.items
        ≡ out.old.items ++ rows_bytes sizes.now (λ t. get_or (lists_in tables.now) (place_of t) []) table) }
{
    let widths = widths(sizes, columns(table));
    put_rows(out, &widths, &tables[place(table)])
}
