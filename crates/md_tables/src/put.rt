//! Rows as bytes, over the widths of any table's columns.

ghost use Rattle.std.specs.Prelude.{◌≡◌, ◌++◌, OnOk};
ghost use Rattle.std.specs.List.{flat_map};
ghost use Rattle.md_schema.specs.Written.{row_bytes};
ghost use Rattle.md_tables.specs.Lists.{cells_in};

use crate::cells::Cells;
use md_bytes::put_number;
use std::alloc::AllocError;

/// Writes one row at the end of `out`, each cell in its column's width.
pub fn put_row(out: &mut Vec<u8>, widths: &[u32], cells: &[u32]) -> Result<(), AllocError>
    ensures { OnOk result (out.new.items ≡ out.old.items ++ row_bytes widths.now cells.now) }
{
    for i in 0..widths.len() {
        if i >= cells.len() {
            return Ok(());
        }
        put_number(out, widths[i], cells[i] as u64)?;
    }
    Ok(())
}

/// Writes the rows of one table at the end of `out`.
pub fn put_rows(out: &mut Vec<u8>, widths: &[u32], rows: &[Cells]) -> Result<(), AllocError>
    ensures { OnOk result (out.new.items ≡ out.old.items ++ flat_map (row_bytes widths.now) (cells_in rows.now)) }
{
    for row in rows {
        put_row(out, widths, row)?;
    }
    Ok(())
}
