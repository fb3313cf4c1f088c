//! What a cell says.

ghost use Rattle.std.specs.Prelude.{◌≡◌, ◌-◌, ◌<◌, slice_get, Some};
ghost use Rattle.md_schema.specs.Schema.{columns_of};
ghost use Rattle.winmd_rows.specs.Values as values_as;
ghost use Rattle.winmd_lines.specs.Cells as cells_as;
ghost use Rattle.winmd_cells.specs.Given.{Finds, Gives};
ghost use Rattle.winmd_cells.specs.Seen.{followed_cell, heaps_in, number_seen, offsets_in, row_seen, tables_in, value_seen};

use crate::image::Image;
use md_heaps::blob_at;
use md_schema::{Column, ImageFault, ImageKind, Table, columns, decode};
use ranked::Stop;
use strings_heap::StringsHeap;

/// What a cell states; row 0 stands for nothing.
#[derive(Clone, Copy)]
pub enum Value<'a> {
    Number(u32),
    Text(&'a [u8]),
    Blob(&'a [u8]),
    Guid(u32),
    To(Table, u32),
}

/// A fault at an offset.
pub fn refused(kind: ImageKind, offset: u64) -> Stop<ImageFault>
    ensures { result ≡ Stop.Refused (record { kind = kind; offset = offset }) }
{
    Stop::Refused(ImageFault { kind, offset })
}

/// Whether flags have this one.
pub fn has_flag(flags: u32, flag: u32) -> bool
    requires { 0 < flag }
    ensures { result ≡ cells_as.has_flag flags flag }
{
    flags / flag % 2 == 1
}

pub(crate) fn column_of(table: Table, column: usize) -> Option<Column>
    ensures { result ≡ slice_get (columns_of table) column }
{
    columns(table).get(column).copied()
}

fn text_in<'a>(heap: &StringsHeap<'a>, at: u32) -> Result<Value<'a>, ImageKind>
    ensures { Finds value_seen result (values_as.follow (record { texts = heap.now; blobs = heap.now }) Column.Texts at) }
{
    match heap.at(at) {
        Ok(text) => Ok(Value::Text(text.as_bytes())),
        Err(fault) => Err(fault.kind),
    }
}

fn blob_in(heap: &[u8], at: u32) -> Result<Value<'_>, ImageKind>
    ensures { Finds value_seen result (values_as.follow (record { texts = heap.now; blobs = heap.now }) Column.Blobs at) }
{
    match blob_at(heap, at) {
        Ok(blob) => Ok(Value::Blob(blob)),
        Err(fault) => Err(fault.kind),
    }
}

impl<'a> Image<'a> {
    pub(crate) fn raw(&self, table: Table, n: u32, column: usize) -> Option<u32>
        ensures { result ≡ number_seen self.now table n column }
    {
        match self.view.rows(table).get((n as usize).saturating_sub(1)) {
            Some(row) => row.as_slice().get(column).copied(),
            None => None,
        }
    }

    pub(crate) fn follow(&self, kind: Column, n: u32) -> Result<Value<'a>, ImageKind>
        ensures { Finds value_seen result (values_as.follow (heaps_in self.now) kind n) }
    {
        match kind {
            Column::One | Column::Two | Column::Four => Ok(Value::Number(n)),
            Column::Texts => text_in(self.texts, n),
            Column::Guids => Ok(Value::Guid(n)),
            Column::Blobs => blob_in(self.blobs, n),
            Column::Index(table) => Ok(Value::To(table, n)),
            Column::Coded(coded) => match decode(coded, n) {
                Ok((table, row)) => Ok(Value::To(table, row)),
                Err(_) => Err(ImageKind::BadTag),
            },
        }
    }

    /// What a cell with this number in this column says.
    fn followed(
        &self,
        table: Table,
        n: u32,
        column: usize,
        kind: Column,
        raw: u32,
    ) -> Result<Value<'a>, Stop<ImageFault>>
        ensures { Gives value_seen result (followed_cell (heaps_in self.now) (offsets_in self.now table (n - 1) column) (Some kind) (Some raw)) }
    {
        match self.follow(kind, raw) {
            Ok(value) => Ok(value),
            Err(kind) => Err(refused(kind, self.offset(table, n, column))),
        }
    }

    fn cell_by(
        &self,
        table: Table,
        n: u32,
        column: usize,
        kind: Option<Column>,
        raw: Option<u32>,
    ) -> Result<Value<'a>, Stop<ImageFault>>
        ensures { Gives value_seen result (followed_cell (heaps_in self.now) (offsets_in self.now table (n - 1) column) kind raw) }
    {
        match kind {
            Some(kind) => match raw {
                Some(raw) => self.followed(table, n, column, kind, raw),
                None => Ok(Value::Number(0)),
            },
            None => Ok(Value::Number(0)),
        }
    }

    /// What a cell says. Rows count from 1, columns from 0; where there is no such cell, the number 0.
    pub fn cell(&self, table: Table, n: u32, column: usize) -> Result<Value<'a>, Stop<ImageFault>>
        ensures { Gives value_seen result (cells_as.cell (row_seen self.now table n) column) }
    {
        self.cell_by(
            table,
            n,
            column,
            column_of(table, column),
            self.raw(table, n, column),
        )
    }

    /// The number in a cell, 0 where it holds none.
    pub fn number(&self, table: Table, n: u32, column: usize) -> Result<u32, Stop<ImageFault>>
        ensures { Gives (λ x. x) result (cells_as.number_in (row_seen self.now table n) column) }
    {
        match self.cell(table, n, column)? {
            Value::Number(n) => Ok(n),
            _ => Ok(0),
        }
    }

    /// The bytes of a text or a blob, none where the cell holds neither.
    pub fn bytes(&self, table: Table, n: u32, column: usize) -> Result<&'a [u8], Stop<ImageFault>>
        ensures { Gives (λ x. x.now) result (cells_as.bytes_in (row_seen self.now table n) column) }
    {
        match self.cell(table, n, column)? {
            Value::Text(bytes) => Ok(bytes),
            Value::Blob(bytes) => Ok(bytes),
            _ => Ok(&[]),
        }
    }

    /// The row that a cell leads to, 0 where it leads nowhere.
    pub fn target(&self, table: Table, n: u32, column: usize) -> Result<u32, Stop<ImageFault>>
        ensures { Gives (λ x. x) result (cells_as.row_in (row_seen self.now table n) column) }
    {
        match self.cell(table, n, column)? {
            Value::To(_, n) => Ok(n),
            _ => Ok(0),
        }
    }
}
