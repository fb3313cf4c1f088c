//! Reading signatures (ECMA-335 II.23.2): exactly what a blob spells, or its first fault, whose offset counts in the blob. A use in a
//! signature is at most 16 deep.

ghost use Rattle.std.specs.Prelude.{◌≡◌};
ghost use Rattle.sig_blobs.specs.Given.{Gives};
ghost use Rattle.sig_blobs.specs.Signatures as signatures;
ghost use Rattle.sig_blobs.specs.Tokens.{meaning_in};
ghost use Rattle.wr_base.specs.Trees.{tree_of, signature_tree};

use crate::faults::{flaw_at, placed};
use crate::flaw::Flaw;
use crate::integers::{byte, integer};
use crate::methods::signature_in;
use crate::token_names::TokenNames;
use crate::uses::use_at;
use md_schema::{ImageFault, ImageKind};
use ranked::Stop;
use std::alloc::Global;
use wr_base::{Signature, TypeUse};

// A use and nothing behind it.
fn use_alone(alloc: Global, names: &TokenNames, bytes: &[u8]) -> Result<TypeUse, Stop<Flaw>>
    ensures { Gives tree_of result (signatures.use_alone (meaning_in names.now) bytes.now) }
{
    let (found, rest) = use_at(alloc, names, bytes)?;
    if rest.is_empty() {
        Ok(found)
    } else {
        Err(flaw_at(ImageKind::SigTail, rest))
    }
}

fn field_in(alloc: Global, names: &TokenNames, blob: &[u8]) -> Result<TypeUse, Stop<Flaw>>
    ensures { Gives tree_of result (signatures.field_in (meaning_in names.now) blob.now) }
{
    let rest = byte(0x06, blob)?;
    use_alone(alloc, names, rest)
}

fn property_in(alloc: Global, names: &TokenNames, blob: &[u8]) -> Result<TypeUse, Stop<Flaw>>
    ensures { Gives tree_of result (signatures.property_in (meaning_in names.now) blob.now) }
{
    let behind = byte(0x28, blob)?;
    let rest = byte(0, behind)?;
    use_alone(alloc, names, rest)
}

fn method_in(alloc: Global, names: &TokenNames, blob: &[u8]) -> Result<Signature, Stop<Flaw>>
    ensures { Gives signature_tree result (signatures.method_in (meaning_in names.now) blob.now) }
{
    let behind = byte(0x20, blob)?;
    let (count, rest) = integer(behind)?;
    signature_in(alloc, names, count, rest)
}

/// The type of a field (II.23.2.4).
#[tactic(auto, using(crate::proofs::FaultLaws::placed_fails))]
pub fn field_of(alloc: Global, blob: &[u8], names: &TokenNames) -> Result<TypeUse, Stop<ImageFault>>
    ensures { Gives tree_of result (signatures.field_of (meaning_in names.now) blob.now) }
{
    match field_in(alloc, names, blob) {
        Ok(found) => Ok(found),
        Err(stop) => Err(placed(blob, stop)),
    }
}

/// The type of a property of an instance, which has no parameters (II.23.2.5).
#[tactic(auto, using(crate::proofs::FaultLaws::placed_fails))]
pub fn property_of(
    alloc: Global,
    blob: &[u8],
    names: &TokenNames,
) -> Result<TypeUse, Stop<ImageFault>>
    ensures { Gives tree_of result (signatures.property_of (meaning_in names.now) blob.now) }
{
    match property_in(alloc, names, blob) {
        Ok(found) => Ok(found),
        Err(stop) => Err(placed(blob, stop)),
    }
}

/// The type of a TypeSpec (II.23.2.14).
#[tactic(auto, using(crate::proofs::FaultLaws::placed_fails))]
pub fn spec_of(alloc: Global, blob: &[u8], names: &TokenNames) -> Result<TypeUse, Stop<ImageFault>>
    ensures { Gives tree_of result (signatures.spec_of (meaning_in names.now) blob.now) }
{
    match use_alone(alloc, names, blob) {
        Ok(found) => Ok(found),
        Err(stop) => Err(placed(blob, stop)),
    }
}

/// The signature of a method of an instance, whose parameters have no names there (II.23.2.1).
#[tactic(auto, using(crate::proofs::FaultLaws::placed_fails))]
pub fn method_of(
    alloc: Global,
    blob: &[u8],
    names: &TokenNames,
) -> Result<Signature, Stop<ImageFault>>
    ensures { Gives signature_tree result (signatures.method_of (meaning_in names.now) blob.now) }
{
    match method_in(alloc, names, blob) {
        Ok(found) => Ok(found),
        Err(stop) => Err(placed(blob, stop)),
    }
}
