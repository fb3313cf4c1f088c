//! Rows and heaps as an image.

ghost use Rattle.std.specs.Prelude.{◌≡◌, ◌↔◌, IsTrue, List, IfOk};
ghost use Rattle.md_tables.specs.Rows.{rows_in, sizes_in};
ghost use Rattle.row_writer.specs.Seen.{seen};
ghost use Rattle.winmd_image.specs.Parts.{Small, padded_types};
ghost use Rattle.winmd_lines.specs.Orders.{Rising};
ghost use Rattle.winmd_sets.specs.Rows.{rows_of};
ghost use Rattle.winmd_strict.specs.Placed.{sizes_of_rows};
ghost use Rattle.winmd_writer.specs.Finished.{ImageOf, StrictFor, all_in_order};
ghost use Rattle.wr_base.specs.Trees.{DeclTree, name_of};

use crate::sorting::sort_tables;
use md_tables::{TableSet, is_writable, write_tables};
use ranked::Memory;
use row_writer::Writer;
use std::alloc::{AllocError, Global};
use winmd_image::{padded_size, wrap_types};

/// Whether an image has room for these streams, and for `#US` and `#GUID`.
fn is_small(tables: &[u8], texts: &[u8], blobs: &[u8]) -> bool
    ensures { IsTrue result ↔ Small (padded_types tables.now texts.now blobs.now) }
{
    let size = padded_size(tables) as u128 + padded_size(texts) as u128 + 20;
    size + (padded_size(blobs) as u128) < 1 << 31
}

/// The image of a set and two heaps. What doesn't fit its columns, and what an image has no room for, is want of memory.
fn image(alloc: Global, set: &TableSet, texts: &[u8], blobs: &[u8]) -> Result<Vec<u8>, Memory>
    requires { sizes_in set.now ≡ sizes_of_rows texts.now blobs.now (rows_in set.now) }
    ensures { IfOk result (λ bytes. ImageOf texts.now blobs.now (rows_in set.now) bytes.items) }
{
    if !is_writable(set) {
        return Err(AllocError);
    }
    let tables = write_tables(alloc, set)?;
    if !is_small(&tables, texts, blobs) {
        return Err(AllocError);
    }
    wrap_types(alloc, &tables, texts, blobs)
}

/// The image of the rows so far. It is strict for the declarations of which these, put in order, are the rows, and its heaps hold nothing but
/// what these say. What is beyond the format's sizes is want of memory, and so is what a writer that gave up a line has.
pub fn finished(alloc: Global, writer: Writer) -> Result<Vec<u8>, Memory>
    ensures { IfOk result (λ bytes. (declared : List DeclTree) → Rising name_of declared → all_in_order (seen writer) ≡ rows_of declared → StrictFor declared bytes.items) }
{
    if writer.failed {
        return Err(AllocError);
    }
    let mut set = writer.set;
    sort_tables(&mut set)?;
    let texts = writer.texts.bytes();
    let blobs = writer.blobs.bytes();
    set.long_texts = padded_size(texts) >= 0x1_0000;
    set.long_guids = false;
    set.long_blobs = padded_size(blobs) >= 0x1_0000;
    image(alloc, &set, texts, blobs)
}
