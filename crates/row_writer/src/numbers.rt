//! The cells of a line as numbers.

ghost use Rattle.std.specs.Prelude.{◌≡◌, ◌<◌, ◌≤◌, ◌^◌, IsTrue, true, length, map, IfOk};
ghost use Rattle.std.specs.List.{Contains};
ghost use Rattle.md_heaps.specs.Blobs.{BlobHere, blob_bytes};
ghost use Rattle.md_heaps.specs.Heaps.{EachStands, Keeps};
ghost use Rattle.md_schema.specs.declared.table.Table.{Table};
ghost use Rattle.md_heaps.specs.Texts.{text_bytes};
ghost use Rattle.md_tables.specs.Rows.{rows_in};
ghost use Rattle.row_writer.specs.Known.{Says, value_at, cell_known};
ghost use Rattle.row_writer.specs.Lines.{cell_fits, cells_fit, counts, value_of};
ghost use Rattle.row_writer.specs.Tight.{Grew};
ghost use Rattle.winmd_rows.specs.Values.{Text, Blob};

use crate::cell::Cell;
use crate::heaps::{intern_blob, intern_text};
use crate::index::index;
use md_heaps::{BlobHeap, TextHeap};
use md_schema::Column;
use md_tables::{Cells, TableSet};
use ranked::Memory;

/// The number of a cell.
#[tactic(auto, using(md_heaps::proofs::HeapLaws::keeps_same, crate::proofs::TightLaws::grew_same))]
pub fn number(
    texts: &mut TextHeap,
    blobs: &mut BlobHeap,
    set: &TableSet,
    column: Column,
    cell: Cell<'_>,
) -> Result<u32, Memory>
    requires fits { IsTrue (cell_fits column cell) }
    requires few { (table : Table) → length (rows_in set.now table) < 2 ^ 24 }
    requires standing { EachStands BlobHere blobs.old }
    ensures standing { EachStands BlobHere blobs.new }
    ensures texts { Keeps texts.old texts.new }
    ensures blobs { Keeps blobs.old blobs.new }
    ensures grew_texts { IfOk result (λ n. Grew text_bytes (λ content. value_of (counts (rows_in set.now)) cell.entry ≡ Text content) texts.old texts.new) }
    ensures grew_blobs { IfOk result (λ n. Grew blob_bytes (λ content. value_of (counts (rows_in set.now)) cell.entry ≡ Blob content) blobs.old blobs.new) }
    ensures value { IfOk result (λ n. (value_at texts.new blobs.new column n ≡ value_of (counts (rows_in set.now)) cell.entry) × (cell_known texts.new blobs.new column n ≡ true)) }
{
    match cell {
        Cell::Number(n) => Ok(n),
        Cell::Words(text) => intern_text(texts, text),
        Cell::Bytes(bytes) => intern_blob(blobs, bytes),
        Cell::Guid(n) => Ok(n),
        Cell::To(table, row) => index(column, table, row),
        Cell::Last(table) => index(column, table, set.count(table) as u32),
        Cell::Next(table) => index(column, table, set.count(table) as u32 + 1),
    }
}

/// The numbers of cells, one for each column.
#[tactic(auto, using(crate::proofs::TightLaws::grew_same))]
pub fn numbers(
    texts: &mut TextHeap,
    blobs: &mut BlobHeap,
    set: &TableSet,
    columns: &[Column],
    cells: &[Cell<'_>],
) -> Result<Cells, Memory>
    requires few_columns { length columns.now ≤ 9 }
    requires fits { IsTrue (cells_fit columns.now cells.now) }
    requires few { (table : Table) → length (rows_in set.now table) < 2 ^ 24 }
    requires standing { EachStands BlobHere blobs.old }
    ensures standing { EachStands BlobHere blobs.new }
    ensures texts { Keeps texts.old texts.new }
    ensures blobs { Keeps blobs.old blobs.new }
    ensures grew_texts { IfOk result (λ row. Grew text_bytes (λ content. Contains (map (value_of (counts (rows_in set.now))) cells.now) (Text content)) texts.old texts.new) }
    ensures grew_blobs { IfOk result (λ row. Grew blob_bytes (λ content. Contains (map (value_of (counts (rows_in set.now))) cells.now) (Blob content)) blobs.old blobs.new) }
    ensures says { IfOk result (λ row. Says texts.new blobs.new columns.now row.items (map (value_of (counts (rows_in set.now))) cells.now)) }
{
    let mut row = Cells::new();
    for i in 0..cells.len() {
        row.push(number(texts, blobs, set, columns[i], cells[i])?);
    }
    Ok(row)
}
