//! Images from a tables' stream that was read.

ghost use Rattle.std.specs.Prelude.{◌≡◌, ◌<◌, ◌^◌, IfOk};
ghost use Rattle.md_schema.specs.declared.table.Table.{Table as AnyTable};
ghost use Rattle.md_schema.specs.Tables.{raw};
ghost use Rattle.md_tables.specs.Rows.{rows_of};
ghost use Rattle.winmd_cells.specs.Placed.{IsPlaces};
ghost use Rattle.winmd_cells.specs.Seen.{tables_in, tables_of};

use crate::image::{Image, Places};
use crate::sizes::{rows_from, sizes};
use crate::starts::{longest, numbers_to, starts_of, widths_of};
use md_schema::TABLES;
use md_tables::TableView;
use ranked::Memory;
use std::alloc::Global;
use strings_heap::StringsHeap;

/// What is worked out once of a tables' stream. Read the stream's tables first: a stream that has a fault may state so many rows that
/// their numbers take 16 GiB.
pub fn places_of(alloc: Global, stream: &[u8]) -> Result<Places, Memory>
    ensures { IfOk result (λ places. IsPlaces stream.now places) }
{
    let sizes = sizes(stream);
    let numbers = numbers_to(alloc, longest(&sizes, &TABLES))?;
    let starts = starts_of(alloc, &sizes, rows_from(stream), &TABLES)?;
    let widths = widths_of(alloc, &sizes, &TABLES)?;
    Ok(Places {
        widths,
        starts,
        numbers,
    })
}

impl<'a> Image<'a> {
    /// The image of a tables' stream that begins at an offset, with its rows as they were read, and of two heaps.
    pub fn new(
        view: &'a TableView,
        stream: &'a [u8],
        at: u64,
        texts: &'a StringsHeap<'a>,
        blobs: &'a [u8],
        places: &'a Places,
    ) -> Image<'a>
        requires read { (table : AnyTable) → rows_of view.now table ≡ raw stream.now table }
        requires low { at < 2 ^ 60 }
        requires places { IsPlaces stream.now places.now }
        ensures { tables_in result ≡ tables_of at stream.now (record { texts = texts.now; blobs = blobs.now }) }
    {
        Image {
            view,
            stream,
            at,
            texts,
            blobs,
            places,
        }
    }
}
