//! The types of an image.

ghost use Rattle.std.specs.Prelude.{Ok, map};
ghost use Rattle.winmd_cells.specs.Given.{Gives};
ghost use Rattle.winmd_image.specs.Taken.{slices_seen};
ghost use Rattle.winmd_read.specs.InTurn.{types_in_rows};
ghost use Rattle.winmd_strict.specs.Reading.{TypesOf, rows_of_slices};
ghost use Rattle.wr_base.specs.Trees.{decl_tree};

use crate::streams::stream_types;
use md_schema::ImageFault;
use ranked::Stop;
use std::alloc::Global;
use winmd_image::{Streams, unwrap};
use wr_base::Types;

fn types_in(alloc: Global, streams: &Streams<'_>) -> Result<Types, Stop<ImageFault>>
    ensures { Gives (map decl_tree) result (types_in_rows (rows_of_slices (Ok (slices_seen streams.now)))) }
{
    stream_types(
        alloc,
        streams.tables.offset,
        streams.tables.bytes,
        streams.texts.bytes,
        streams.blobs.bytes,
    )
}

/// The types that an image states, in the order of full names, whoever wrote it. A refusal is the first fault of the image, its offset
/// counted from the image's first byte: of the file around the metadata (ECMA-335 II.25), of the metadata's root and streams (II.24.2), of
/// the tables' stream (II.24.2.6), or of what the rows say (II.22). Want of memory is the one other answer.
pub fn types_of(alloc: Global, bytes: &[u8]) -> Result<Types, Stop<ImageFault>>
    ensures { Gives (map decl_tree) result (TypesOf bytes.now) }
{
    match unwrap(bytes) {
        Ok(streams) => types_in(alloc, &streams),
        Err(fault) => Err(Stop::Refused(fault)),
    }
}
