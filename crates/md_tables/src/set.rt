//! The rows to be written, of each table.

ghost use Rattle.std.specs.Prelude.{◌≡◌, length};

use crate::cells::{Cells, cells_from};
use crate::numbers::place;
use md_schema::{Row, Table};
use std::alloc::{AllocError, Global};

/// The heap bits and the rows of each table, from which the tables' stream is written (ECMA-335 II.24.2.6).
#[derive(Debug, Drop)]
pub struct TableSet {
    /// Indices into `#Strings` have four bytes.
    pub long_texts: bool,
    /// Indices into `#GUID` have four bytes.
    pub long_guids: bool,
    /// Indices into `#Blob` have four bytes.
    pub long_blobs: bool,
    pub tables: Vec<Vec<Cells>>,
    pub ghost all: { length tables.items ≡ 38 },
}

impl TableSet {
    ghost use Rattle.std.specs.Prelude.{[], IfOk, OnOk, OnErr};
    ghost use Rattle.md_schema.specs.declared.table.Table.{Table};
    ghost use Rattle.md_schema.specs.Schema.{columns_of};
    ghost use Rattle.md_tables.specs.Lists.{cells_in};
    ghost use Rattle.md_tables.specs.Rows.{rows_in, with_row};

    /// A set without rows.
    pub fn new(
        alloc: Global,
        long_texts: bool,
        long_guids: bool,
        long_blobs: bool,
    ) -> Result<TableSet, AllocError>
        ensures texts { IfOk result (λ set. set.long_texts ≡ long_texts) }
        ensures guids { IfOk result (λ set. set.long_guids ≡ long_guids) }
        ensures blobs { IfOk result (λ set. set.long_blobs ≡ long_blobs) }
        ensures empty { IfOk result (λ set. (table : Table) → rows_in set table ≡ []) }
    {
        let mut tables = Vec::new(alloc);
        for _ in 0..38u32 {
            tables.push(Vec::new(alloc))?;
        }
        Ok(TableSet {
            long_texts,
            long_guids,
            long_blobs,
            tables,
        })
    }

    /// Adds a row at the end of a table. The number of its columns is the table's.
    pub fn push<const N: usize>(&mut self, table: Table, row: &Row<N>) -> Result<(), AllocError>
        requires { N ≡ length (columns_of table) }
        ensures added { OnOk result (rows_in self.new ≡ with_row (rows_in self.old) table row.now.cells) }
        ensures unchanged { OnErr result (rows_in self.new ≡ rows_in self.old) }
        ensures texts { self.new.long_texts ≡ self.old.long_texts }
        ensures guids { self.new.long_guids ≡ self.old.long_guids }
        ensures blobs { self.new.long_blobs ≡ self.old.long_blobs }
    {
        self.push_cells(table, cells_from(&row.cells))
    }

    /// Adds a row at the end of a table, with a cell for each of its columns.
    pub fn push_cells(&mut self, table: Table, cells: Cells) -> Result<(), AllocError>
        requires { length cells.items ≡ length (columns_of table) }
        ensures added { OnOk result (rows_in self.new ≡ with_row (rows_in self.old) table cells.items) }
        ensures unchanged { OnErr result (rows_in self.new ≡ rows_in self.old) }
        ensures texts { self.new.long_texts ≡ self.old.long_texts }
        ensures guids { self.new.long_guids ≡ self.old.long_guids }
        ensures blobs { self.new.long_blobs ≡ self.old.long_blobs }
    {
        self.tables[place(table)].push(cells)?;
        Ok(())
    }

    /// The rows of a table.
    pub fn rows(&self, table: Table) -> &[Cells]
        ensures { cells_in result.now ≡ rows_in self.now table }
    {
        self.tables[place(table)].as_slice()
    }

    /// How many rows a table has.
    pub fn count(&self, table: Table) -> usize
        ensures { result ≡ length (rows_in self.now table) }
    {
        self.tables[place(table)].len()
    }
}
