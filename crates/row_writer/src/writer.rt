//! Rows and heaps, line by line.

ghost use Rattle.std.specs.Prelude.{◌≡◌, ◌<◌, ◌^◌, IsTrue, [], Some, true, false, length, IfOk, OnOk};
ghost use Rattle.md_heaps.specs.Blobs.{BlobHere, blob_bytes};
ghost use Rattle.md_heaps.specs.Heaps.{EachStands, index_of};
ghost use Rattle.md_heaps.specs.Texts.{text_bytes};
ghost use Rattle.md_schema.specs.declared.table.Table.{Table};
ghost use Rattle.md_schema.specs.Schema.{columns_of};
ghost use Rattle.md_tables.specs.Rows.{rows_in};
ghost use Rattle.row_writer.specs.Known.{all_known, rows_seen};
ghost use Rattle.row_writer.specs.Tight.{Has, Tight};
ghost use Rattle.winmd_rows.specs.Values.{Text, Blob};

use crate::cell::Cell;
use crate::numbers::numbers;
use md_heaps::{BlobHeap, TextHeap};
use md_schema::{Table, columns};
use md_tables::TableSet;
use ranked::Memory;
use std::alloc::{AllocError, Global};

/// The rows and the heaps so far.
#[derive(Drop)]
pub struct Writer {
    pub set: TableSet,
    pub texts: TextHeap,
    pub blobs: BlobHeap,
    /// Whether a line was given up, so that a heap may have what no row says.
    pub failed: bool,
    pub ghost room: { (table : Table) → length (rows_in set table) < 2 ^ 24 },
    // each index in a row is that of what was interned
    pub ghost known: { (table : Table) → all_known texts blobs (rows_in set) table ≡ true },
    pub ghost standing: { EachStands BlobHere blobs },
    pub ghost empty_text: { index_of texts [] ≡ Some 0 },
    pub ghost empty_blob: { index_of blobs [] ≡ Some 0 },
    // the heaps hold nothing but what rows say
    pub ghost tight_texts: { failed ≡ false → ∥ Tight text_bytes (λ content. Has (rows_seen texts blobs (rows_in set)) (Text content)) texts ∥₁ },
    pub ghost tight_blobs: { failed ≡ false → ∥ Tight blob_bytes (λ content. Has (rows_seen texts blobs (rows_in set)) (Blob content)) blobs ∥₁ },
}

/// The most rows of a table.
const MOST_ROWS: usize = 0xFF_FFFF;

impl Writer {
    ghost use Rattle.row_writer.specs.Lines.{cells_fit, added, line, no_rows};
    ghost use Rattle.row_writer.specs.Seen.{seen};

    /// A writer without rows.
    pub fn new(alloc: Global) -> Result<Writer, Memory>
        ensures rows { IfOk result (λ w. seen w ≡ no_rows) }
    {
        let texts = TextHeap::new(alloc)?;
        let blobs = BlobHeap::new(alloc)?;
        let set = TableSet::new(alloc, false, false, false)?;
        Ok(Writer {
            set,
            texts,
            blobs,
            failed: false,
        })
    }

    /// Writes one line, with a cell for each column of its table. What the format has no room for is want of memory: a table of 2^24 rows,
    /// a heap of 2^29 bytes, a text that isn't ASCII without zero.
    pub fn line(&mut self, table: Table, cells: &[Cell<'_>]) -> Result<(), Memory>
        requires fits { IsTrue (cells_fit (columns_of table) cells.now) }
        ensures rows { OnOk result (seen self.new ≡ added (line table cells.now) (seen self.old)) }
    {
        if self.set.count(table) >= MOST_ROWS {
            return Err(AllocError);
        }
        let failed = self.failed;
        self.failed = true;
        let row = numbers(
            &mut self.texts,
            &mut self.blobs,
            &self.set,
            columns(table),
            cells,
        )?;
        self.set.push_cells(table, row)?;
        self.failed = failed;
        Ok(())
    }
}
