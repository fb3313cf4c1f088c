//! All that is found once of an image.

ghost use Rattle.std.specs.Prelude.{◌≡◌, IfOk};
ghost use Rattle.winmd_index.specs.Indexed.{IsIndexes};

use crate::names::names_of;
use crate::rows::{attribute_rows, part_rows};
use ranked::Memory;
use sig_blobs::TokenNames;
use std::alloc::Global;
use winmd_cells::Image;
use winmd_source::{AttributeRows, PartRows, Source};

/// What is found once of an image.
#[derive(Drop)]
pub struct Indexes {
    pub names: TokenNames,
    pub parts: PartRows,
    pub attributes: AttributeRows,
}

/// What is found once of an image: one pass over each table. Want of memory is its one refusal.
pub fn indexes_of(alloc: Global, image: &Image<'_>) -> Result<Indexes, Memory>
    ensures { IfOk result (λ indexes. IsIndexes image.now indexes) }
{
    let names = names_of(alloc, image)?;
    let parts = part_rows(alloc, image)?;
    let attributes = attribute_rows(alloc, image)?;
    Ok(Indexes {
        names,
        parts,
        attributes,
    })
}

/// The image that is read, with what was found of it.
pub fn source_of<'a>(image: Image<'a>, indexes: &'a Indexes) -> Source<'a>
    requires { IsIndexes image indexes.now }
    ensures { result.image ≡ image.entry }
{
    Source {
        image,
        names: &indexes.names,
        parts: &indexes.parts,
        attributes: &indexes.attributes,
    }
}
