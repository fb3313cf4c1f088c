//! What attributes say (II.23.3).

ghost use Rattle.std.specs.Prelude.{◌≡◌};
ghost use Rattle.sig_blobs.specs.Attributes as blobs_as;
ghost use Rattle.winmd_attributes.specs.Seen.{attribute_seen};
ghost use Rattle.winmd_attributes.specs.Stops.{abi_name_of, stop_at};
ghost use Rattle.winmd_cells.specs.Given.{Gives};
ghost use Rattle.winmd_cells.specs.Seen.{tables_in};
ghost use Rattle.winmd_sets.specs.Attributes as attributes_as;

use crate::constructors::Attribute;
use md_schema::{ImageFault, Table};
use ranked::{Name, Stop};
use sig_blobs::{Argument, ArgumentKind, first_argument};
use std::alloc::Global;
use winmd_source::{Source, full_name, name_of, refused};
use wr_base::FullName;

fn stop_at(offset: u64, stop: Stop<ImageFault>) -> Stop<ImageFault>
    ensures { result ≡ stop_at offset stop }
{
    match stop {
        Stop::Memory => Stop::Memory,
        Stop::Refused(fault) => refused(fault.kind, offset),
    }
}

#[tactic(auto, using(crate::proofs::ValueLaws::placed_fails))]
fn argument_in(
    alloc: Global,
    kind: ArgumentKind,
    offset: u64,
    value: &[u8],
) -> Result<Argument, Stop<ImageFault>>
    ensures { Gives (λ x. x) result (attributes_as.placed_at offset (blobs_as.first_argument kind value.now)) }
{
    match first_argument(alloc, value, kind) {
        Ok(argument) => Ok(argument),
        Err(stop) => Err(stop_at(offset, stop)),
    }
}

fn value_at(source: &Source<'_>, attribute: &Attribute<'_>) -> u64
    ensures { result ≡ attributes_as.value_at (tables_in source.now.image) (attribute_seen source.now.image attribute.now) }
{
    source
        .image
        .offset(Table::CustomAttribute, attribute.row, 2)
}

/// The first argument of an attribute, of this kind.
pub(crate) fn argument_of(
    alloc: Global,
    source: &Source<'_>,
    kind: ArgumentKind,
    attribute: &Attribute<'_>,
) -> Result<Argument, Stop<ImageFault>>
    ensures { Gives (λ x. x) result (attributes_as.argument_of (tables_in source.now.image) kind (attribute_seen source.now.image attribute.now)) }
{
    let value = source
        .image
        .bytes(Table::CustomAttribute, attribute.row, 2)?;
    argument_in(alloc, kind, value_at(source, attribute), value)
}

fn text_of(argument: &Argument) -> &[u8]
    ensures { result.now ≡ attributes_as.text_of argument.now }
{
    match argument {
        Argument::Words(text) => text.as_str().as_bytes(),
        Argument::TypeName(name) => name.as_str().as_bytes(),
        _ => &[],
    }
}

/// The name that an attribute says, an identifier of at most 511 bytes.
pub fn abi_name(
    alloc: Global,
    source: &Source<'_>,
    attribute: &Attribute<'_>,
) -> Result<Name, Stop<ImageFault>>
    ensures { Gives (λ x. x) result (abi_name_of (tables_in source.now.image) (attribute_seen source.now.image attribute.now)) }
{
    let argument = argument_of(alloc, source, ArgumentKind::Words, attribute)?;
    name_of(alloc, 511, value_at(source, attribute), text_of(&argument))
}

/// The full name that an attribute says.
pub fn type_name_of(
    alloc: Global,
    source: &Source<'_>,
    attribute: &Attribute<'_>,
) -> Result<FullName, Stop<ImageFault>>
    ensures { Gives (λ x. x) result (attributes_as.type_name_of (tables_in source.now.image) (attribute_seen source.now.image attribute.now)) }
{
    let argument = argument_of(alloc, source, ArgumentKind::TypeName, attribute)?;
    full_name(alloc, value_at(source, attribute), text_of(&argument))
}
