//! Where the fault of a blob stands in the image.

ghost use Rattle.std.specs.Prelude.{◌≡◌, drop, ℕ};
ghost use Rattle.md_heaps.specs.Integers.{compressed_of};
ghost use Rattle.winmd_blobs.specs.Moved.{IsMoved};
ghost use Rattle.winmd_cells.specs.Given.{Fails, Gives};
ghost use Rattle.winmd_cells.specs.Names.{full_seen};
ghost use Rattle.winmd_cells.specs.Seen.{tables_in};
ghost use Rattle.winmd_sets.specs.Blobs as blobs_as;

use md_heaps::compressed;
use md_schema::{CodedIndex, ImageFault, ImageKind, Table, decode};
use ranked::Stop;
use winmd_cells::{TypeName, Value};
use winmd_source::{Source, refused};

/// The full name of the type that a token stands for.
fn token_name<'a>(
    source: &Source<'a>,
    offset: u64,
    token: u32,
) -> Result<TypeName<'a>, Stop<ImageFault>>
    ensures { Gives full_seen result (blobs_as.token_name (tables_in source.now.image) offset token) }
{
    match decode(CodedIndex::TypeDefOrRef, token) {
        Err(_) => Err(refused(ImageKind::BadTag, offset)),
        Ok((Table::TypeSpec, _)) => Err(refused(ImageKind::SigElement, offset)),
        Ok((table, n)) => source.image.named_at(offset, Value::To(table, n)),
    }
}

fn is_of_text(kind: ImageKind) -> bool
    ensures { result ≡ blobs_as.is_of_text kind }
{
    matches!(kind, ImageKind::HeapRange | ImageKind::HeapText)
}

/// The fault of a name, by its token.
#[tactic(auto, using(crate::proofs::SpelledLaws::fails_on))]
fn at_token(source: &Source<'_>, offset: u64, kind: ImageKind, token: u32) -> Stop<ImageFault>
    ensures { (size : ℕ) → Fails result (blobs_as.at_name {A = ℕ} (tables_in source.now.image) offset kind (Ok (token, size))) }
{
    match token_name(source, offset, token) {
        Ok(_) => refused(kind, offset),
        Err(stop) => stop,
    }
}

/// The fault of a name, whose token stands at the front of these bytes.
fn at_name(source: &Source<'_>, offset: u64, kind: ImageKind, bytes: &[u8]) -> Stop<ImageFault>
    ensures { Fails result (blobs_as.at_name {A = ℕ} (tables_in source.now.image) offset kind (compressed_of bytes.now)) }
{
    match compressed(bytes) {
        Ok(found) => at_token(source, offset, kind, found.0),
        Err(_) => refused(kind, offset),
    }
}

fn behind(bytes: &[u8], offset: u64) -> &[u8]
    ensures { result.now ≡ drop offset bytes.now }
{
    if offset < bytes.len() as u64 {
        &bytes[offset as usize..]
    } else {
        &[]
    }
}

fn moved_fault(source: &Source<'_>, offset: u64, blob: &[u8], fault: ImageFault) -> Stop<ImageFault>
    ensures { Fails result (blobs_as.spelled {A = ℕ} (tables_in source.now.image) offset blob.now (Err fault)) }
{
    if is_of_text(fault.kind) {
        at_name(source, offset, fault.kind, behind(blob, fault.offset))
    } else {
        refused(fault.kind, offset)
    }
}

/// What stopped the reading of a blob, where it stands: at the cell that names the blob, or at the cell of a name that the blob uses.
pub(crate) fn moved(
    source: &Source<'_>,
    offset: u64,
    blob: &[u8],
    stop: Stop<ImageFault>,
) -> Stop<ImageFault>
    ensures { IsMoved (tables_in source.now.image) offset blob.now stop result }
{
    match stop {
        Stop::Memory => Stop::Memory,
        Stop::Refused(fault) => moved_fault(source, offset, blob, fault),
    }
}
