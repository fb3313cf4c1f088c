//! An image's rows and heaps, as reading has them.

ghost use Rattle.std.specs.Prelude.{◌<◌, ◌≤◌, ◌≡◌, ◌^◌, ◌+◌, [], length, get_or};
ghost use Rattle.md_schema.specs.declared.table.Table.{Table};
ghost use Rattle.md_schema.specs.Schema.{place_of};
ghost use Rattle.md_schema.specs.Tables.{raw, rows_from, sizes_of, table_start, upto, widths_of};
ghost use Rattle.md_tables.specs.Lists.{cells_in};
ghost use Rattle.md_tables.specs.Rows.{rows_of};

use md_tables::{Cells, TableView};
use strings_heap::StringsHeap;

/// What is worked out once of a tables' stream: by it any cell's place is found, and any list of rows is a part of one list.
#[derive(Drop)]
pub struct Places {
    /// How many bytes the cells of each column have, in the order of tables.
    pub widths: Vec<Cells>,
    /// Where each table begins in the stream, in the order of tables.
    pub starts: Vec<u64>,
    /// The numbers from 1 on, as many as the longest table has rows.
    pub numbers: Vec<u32>,
}

/// The rows of an image, its heaps, and where its cells stand.
#[derive(Clone, Copy)]
pub struct Image<'a> {
    /// The rows of the tables' stream.
    pub view: &'a TableView,
    /// The tables' stream.
    pub stream: &'a [u8],
    /// Where the tables' stream begins in the image.
    pub at: u64,
    /// `#Strings`.
    pub texts: &'a StringsHeap<'a>,
    /// `#Blob`.
    pub blobs: &'a [u8],
    pub places: &'a Places,
    pub ghost read: { (table : Table) → rows_of view.now table ≡ raw stream.now table },
    pub ghost few: { (table : Table) → length (rows_of view.now table) < 2 ^ 32 },
    pub ghost low: { at < 2 ^ 60 },
    pub ghost wide: { (table : Table) → get_or (cells_in places.now.widths.items) (place_of table) [] ≡ widths_of (sizes_of stream.now) table },
    pub ghost started: { (table : Table) → get_or places.now.starts.items (place_of table) 0 ≡ rows_from stream.now + table_start (sizes_of stream.now) table },
    pub ghost near: { (table : Table) → get_or places.now.starts.items (place_of table) 0 < 2 ^ 50 },
    pub ghost enough: { (table : Table) → length (rows_of view.now table) ≤ length places.now.numbers.items },
    pub ghost counted: { places.now.numbers.items ≡ upto 1 (length places.now.numbers.items) },
}
