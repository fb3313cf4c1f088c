//! The rows that were read.

ghost use Rattle.std.specs.Prelude.{◌≡◌, ◌<◌, ◌≤◌, ◌-◌, ◌⊎◌, ◌↔◌, ℕ, [], length, get_or, IfOk, IfErr, OnErr, OnOk, IsErr};
ghost use Rattle.md_schema.specs.Schema.{columns_of};
ghost use Rattle.md_schema.specs.Faults.{fault_at};
ghost use Rattle.md_tables.specs.Lists.{cells_in};
ghost use Rattle.md_tables.specs.Rows.{rows_of};

use crate::cells::Cells;
use crate::numbers::place;
use md_schema::{ImageFault, ImageKind, Row, Table};

/// The rows of each table, read from a stream of tables.
#[derive(Debug, Drop)]
pub struct TableView {
    pub tables: Vec<Vec<Cells>>,
}

impl TableView {
    /// The row of a table by its number, from 1. Refused where the number is 0 or above the table's count. The table has N columns.
    pub fn row<const N: usize>(&self, table: Table, index: u32) -> Result<Row<N>, ImageFault>
        requires { N ≡ length (columns_of table) }
        ensures ok { OnOk result ((0 < index) × (index ≤ length (rows_of self.now table))) }
        ensures cells { IfOk result (λ row. (column : ℕ) → column < N →
            get_or row.cells column 0 ≡ get_or (get_or (rows_of self.now table) (index - 1) []) column 0) }
        ensures refused { OnErr result ((index ≡ 0) ⊎ (length (rows_of self.now table) < index)) }
        ensures fault { IfErr result (λ e. e ≡ fault_at ImageKind.RowRange 0) }
    {
        let rows = self.rows(table);
        if index == 0 || index as usize > rows.len() {
            return Err(ImageFault {
                kind: ImageKind::RowRange,
                offset: 0,
            });
        }
        Ok(Row {
            cells: cells_of(&rows[index as usize - 1]),
        })
    }

    /// The rows of a table.
    pub fn rows(&self, table: Table) -> &[Cells]
        ensures { cells_in result.now ≡ rows_of self.now table }
    {
        match self.tables.get(place(table)) {
            Some(rows) => rows.as_slice(),
            None => &[],
        }
    }

    /// How many rows a table has.
    pub fn count(&self, table: Table) -> usize
        ensures { result ≡ length (rows_of self.now table) }
    {
        self.rows(table).len()
    }
}

/// The first N cells of a row.
fn cells_of<const N: usize>(row: &[u32]) -> [u32; N]
    ensures { (column : ℕ) → column < N → get_or result column 0 ≡ get_or row.now column 0 }
{
    let mut cells = [0; N];
    for column in 0..N {
        if column < row.len() {
            cells[column] = row[column];
        }
    }
    cells
}
