//! The signatures of fields, properties, TypeSpecs and methods.

ghost use Rattle.std.specs.Prelude.{◌≡◌};
ghost use Rattle.wr_base.specs.Trees.{signature_tree, tree_of};
ghost use Rattle.winmd_cells.specs.Given.{Gives};
ghost use Rattle.winmd_cells.specs.Seen.{tables_in};
ghost use Rattle.winmd_sets.specs.Blobs as blobs_as;

use crate::paths::{limited_signature, limited_use};
use crate::spelled::moved;
use md_schema::ImageFault;
use ranked::Stop;
use std::alloc::Global;
use winmd_source::Source;
use wr_base::{Signature, TypeUse};

/// The type of a field (II.23.2.4), whose signature's cell stands at an offset.
pub fn field_of(
    alloc: Global,
    source: &Source<'_>,
    offset: u64,
    blob: &[u8],
) -> Result<TypeUse, Stop<ImageFault>>
    ensures { Gives tree_of result (blobs_as.field_of (tables_in source.now.image) offset blob.now) }
{
    match sig_blobs::field_of(alloc, blob, source.names) {
        Ok(ty) => limited_use(offset, ty),
        Err(stop) => Err(moved(source, offset, blob, stop)),
    }
}

/// The type of a property (II.23.2.5).
pub fn property_of(
    alloc: Global,
    source: &Source<'_>,
    offset: u64,
    blob: &[u8],
) -> Result<TypeUse, Stop<ImageFault>>
    ensures { Gives tree_of result (blobs_as.property_of (tables_in source.now.image) offset blob.now) }
{
    match sig_blobs::property_of(alloc, blob, source.names) {
        Ok(ty) => limited_use(offset, ty),
        Err(stop) => Err(moved(source, offset, blob, stop)),
    }
}

/// The type of a TypeSpec (II.23.2.14).
pub(crate) fn spec_of(
    alloc: Global,
    source: &Source<'_>,
    offset: u64,
    blob: &[u8],
) -> Result<TypeUse, Stop<ImageFault>>
    ensures { Gives tree_of result (blobs_as.spec_of (tables_in source.now.image) offset blob.now) }
{
    match sig_blobs::spec_of(alloc, blob, source.names) {
        Ok(ty) => limited_use(offset, ty),
        Err(stop) => Err(moved(source, offset, blob, stop)),
    }
}

/// The signature of a method (II.23.2.1), whose parameters have no names there.
pub fn method_of(
    alloc: Global,
    source: &Source<'_>,
    offset: u64,
    blob: &[u8],
) -> Result<Signature, Stop<ImageFault>>
    ensures { Gives signature_tree result (blobs_as.method_of (tables_in source.now.image) offset blob.now) }
{
    match sig_blobs::method_of(alloc, blob, source.names) {
        Ok(signature) => limited_signature(offset, signature),
        Err(stop) => Err(moved(source, offset, blob, stop)),
    }
}
