//! Indices to rows.

ghost use Rattle.std.specs.Prelude.{◌≡◌, IfOk};
ghost use Rattle.winmd_rows.specs.Indices.{index_of};

use md_schema::{Column, Table, encode};
use ranked::Memory;
use std::alloc::AllocError;

/// The most rows that an index is made for.
const MOST_ROWS: u32 = 0x100_0000;

/// The number of a cell that leads to a row. A row behind 2^24 is want of memory.
pub fn index(column: Column, table: Table, row: u32) -> Result<u32, Memory>
    ensures { IfOk result (λ n. n ≡ index_of column table row) }
{
    if row > MOST_ROWS {
        return Err(AllocError);
    }
    match column {
        Column::Coded(coded) => Ok(encode(coded, table, row).unwrap_or(0)),
        _ => Ok(row),
    }
}
