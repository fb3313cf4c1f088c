//! Sets of rows as cases spell them: `NUMBER:CELL,CELL ..|NUMBER:CELL ..`, the numbers of tables hexadecimal and the cells decimal.

ghost use Rattle.std.specs.Prelude.{◌≡◌, length};
ghost use Rattle.md_schema.specs.Schema.{columns_of};

use crate::schema::table_of;
use case_text::decimal;
use md_schema::{Row, Table, columns};
use md_tables::TableSet;
use std::alloc::{AllocError, Global};

fn push_row<const N: usize>(
    set: &mut TableSet,
    table: Table,
    cells: &[u32],
) -> Result<(), AllocError>
    requires { N ≡ length (columns_of table) }
{
    let mut row = Row { cells: [0; N] };
    for column in 0..N {
        if column < cells.len() {
            row.cells[column] = cells[column];
        }
    }
    set.push(table, &row)
}

/// Adds a row with these cells, one for each column.
pub fn push(set: &mut TableSet, table: Table, cells: &[u32]) -> Result<(), AllocError> {
    match columns(table).len() {
        1 => push_row::<1>(set, table, cells),
        2 => push_row::<2>(set, table, cells),
        3 => push_row::<3>(set, table, cells),
        4 => push_row::<4>(set, table, cells),
        5 => push_row::<5>(set, table, cells),
        6 => push_row::<6>(set, table, cells),
        9 => push_row::<9>(set, table, cells),
        _ => Ok(()),
    }
}

/// The cells of a row.
fn cells_of(alloc: Global, text: &str) -> Result<Vec<u32>, AllocError> {
    let mut cells = Vec::new(alloc);
    for cell in text.split(',') {
        cells.push(decimal(cell))?;
    }
    Ok(cells)
}

/// Adds a row with these cells; none where there is no cell.
pub fn push_spelled(
    set: &mut TableSet,
    alloc: Global,
    table: Table,
    cells: &str,
) -> Result<(), AllocError> {
    if cells.is_empty() {
        return Ok(());
    }
    let cells = cells_of(alloc, cells)?;
    push(set, table, &cells)
}

/// Adds each row.
pub fn push_rows(set: &mut TableSet, alloc: Global, text: &str) -> Result<(), AllocError> {
    for part in text.split('|') {
        let (number, cells) = part.split_once(':').unwrap_or((part, ""));
        if let Some(table) = table_of(number) {
            push_spelled(set, alloc, table, cells)?;
        }
    }
    Ok(())
}
