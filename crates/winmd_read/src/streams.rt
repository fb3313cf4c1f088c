//! The rows of an image's tables' stream, over the heaps.

ghost use Rattle.std.specs.Prelude.{◌≡◌, ◌<◌, ◌^◌, ◌+◌, IfOk, map, true};
ghost use Rattle.md_schema.specs.Tables.{raw};
ghost use Rattle.md_schema.specs.declared.table.Table.{Table as AnyTable};
ghost use Rattle.md_tables.specs.Faults.{fault_of};
ghost use Rattle.md_tables.specs.Rows.{rows_of};
ghost use Rattle.md_tables.specs.Stops.{IfRefused};
ghost use Rattle.winmd_cells.specs.Given.{Gives};
ghost use Rattle.winmd_cells.specs.Seen.{tables_of};
ghost use Rattle.winmd_read.specs.InTurn.{types_in_rows};
ghost use Rattle.winmd_sets.specs.Types as types_as;
ghost use Rattle.winmd_strict.specs.Reading.{moved, rows_in};
ghost use Rattle.wr_base.specs.Trees.{decl_tree};

use crate::tables::image_types;
use md_schema::ImageFault;
use md_tables::{TableView, read_tables};
use ranked::Stop;
use std::alloc::Global;
use strings_heap::StringsHeap;
use winmd_cells::{Image, places_of};
use wr_base::Types;

/// Where a stream may begin: in memory none begins beyond.
const LIMIT: u64 = 1 << 60;

// A fault of a stream that begins at an offset.
fn moved_fault(at: u64, fault: ImageFault) -> Stop<ImageFault>
    ensures { IfRefused result (λ found. found ≡ record { kind = fault.kind; offset = at + fault.offset }) }
{
    match at.checked_add(fault.offset) {
        Some(offset) => Stop::Refused(ImageFault {
            kind: fault.kind,
            offset,
        }),
        None => Stop::Memory,
    }
}

fn view_of(alloc: Global, at: u64, stream: &[u8]) -> Result<TableView, Stop<ImageFault>>
    ensures whole { Gives (λ x. true) result (moved at (fault_of stream.now)) }
    ensures rows { IfOk result (λ view. (table : AnyTable) → rows_of view table ≡ raw stream.now table) }
{
    match read_tables(alloc, stream) {
        Ok(view) => Ok(view),
        Err(Stop::Memory) => Err(Stop::Memory),
        Err(Stop::Refused(fault)) => Err(moved_fault(at, fault)),
    }
}

fn view_types(
    alloc: Global,
    view: &TableView,
    at: u64,
    stream: &[u8],
    texts: &[u8],
    blobs: &[u8],
) -> Result<Types, Stop<ImageFault>>
    requires read { (table : AnyTable) → rows_of view.now table ≡ raw stream.now table }
    requires low { at < 2 ^ 60 }
    ensures { Gives (map decl_tree) result (types_as.types_of (tables_of at stream.now (record { texts = texts.now; blobs = blobs.now }))) }
{
    let places = places_of(alloc, stream)?;
    let heap = StringsHeap::new(alloc, texts)?;
    image_types(alloc, Image::new(view, stream, at, &heap, blobs, &places))
}

/// The set of types that a tables' stream at an offset states, over two heaps.
pub(crate) fn stream_types(
    alloc: Global,
    at: u64,
    stream: &[u8],
    texts: &[u8],
    blobs: &[u8],
) -> Result<Types, Stop<ImageFault>>
    ensures { Gives (map decl_tree) result (types_in_rows (rows_in at stream.now (record { texts = texts.now; blobs = blobs.now }))) }
{
    if at >= LIMIT {
        return Err(Stop::Memory);
    }
    let view = view_of(alloc, at, stream)?;
    view_types(alloc, &view, at, stream, texts, blobs)
}
