//! What the attributes of a type say of it.

ghost use Rattle.std.specs.Prelude.{◌≡◌, map, option_map};
ghost use Rattle.winmd_attributes.specs.Seen.{attribute_seen};
ghost use Rattle.winmd_cells.specs.Given.{Gives};
ghost use Rattle.winmd_cells.specs.Seen.{tables_in};
ghost use Rattle.winmd_sets.specs.Attributes as attributes_as;

use crate::constructors::Attribute;
use crate::lists::only_of;
use crate::values::{argument_of, type_name_of};
use crate::words::Word;
use md_schema::{ImageFault, ImageKind, Table};
use ranked::Stop;
use sig_blobs::{Argument, ArgumentKind};
use std::alloc::Global;
use winmd_source::{Source, refused};
use wr_base::FullName;

fn number_of(argument: &Argument) -> u32
    ensures { result ≡ attributes_as.number_of argument.now }
{
    match argument {
        Argument::Number(n) => *n,
        _ => 0,
    }
}

fn id_number(argument: &Argument) -> u128
    ensures { result ≡ attributes_as.id_number argument.now }
{
    match argument {
        Argument::Id(id) => *id,
        _ => 0,
    }
}

fn version_or(
    alloc: Global,
    source: &Source<'_>,
    attribute: Option<Attribute<'_>>,
) -> Result<u32, Stop<ImageFault>>
    ensures { Gives (λ x. x) result (attributes_as.version_or (tables_in source.now.image) (option_map (attribute_seen source.now.image) attribute.entry)) }
{
    match attribute {
        None => Ok(1),
        Some(attribute) => {
            let argument = argument_of(alloc, source, ArgumentKind::Number, &attribute)?;
            Ok(number_of(&argument))
        }
    }
}

/// The version of a type, 1 where its attributes give none.
pub fn version_of<'a>(
    alloc: Global,
    source: &Source<'a>,
    n: u32,
    attributes: &[Attribute<'a>],
) -> Result<u32, Stop<ImageFault>>
    ensures { Gives (λ x. x) result (attributes_as.version_of (tables_in source.now.image) n (map (attribute_seen source.now.image) attributes.now)) }
{
    let offset = source.image.offset(Table::TypeDef, n, 0);
    let found = only_of(alloc, source, offset, Word::Version, attributes)?;
    version_or(alloc, source, found)
}

fn id_or(
    alloc: Global,
    source: &Source<'_>,
    n: u32,
    attribute: Option<Attribute<'_>>,
) -> Result<u128, Stop<ImageFault>>
    ensures { Gives (λ x. x) result (attributes_as.id_or (tables_in source.now.image) n (option_map (attribute_seen source.now.image) attribute.entry)) }
{
    match attribute {
        None => Err(refused(
            ImageKind::MissingAttribute,
            source.image.offset(Table::TypeDef, n, 0),
        )),
        Some(attribute) => {
            let argument = argument_of(alloc, source, ArgumentKind::Id, &attribute)?;
            Ok(id_number(&argument))
        }
    }
}

/// The id of a type. Refused with MissingAttribute where its attributes give none.
pub fn id_of<'a>(
    alloc: Global,
    source: &Source<'a>,
    n: u32,
    attributes: &[Attribute<'a>],
) -> Result<u128, Stop<ImageFault>>
    ensures { Gives (λ x. x) result (attributes_as.id_of (tables_in source.now.image) n (map (attribute_seen source.now.image) attributes.now)) }
{
    let offset = source.image.offset(Table::TypeDef, n, 0);
    let found = only_of(alloc, source, offset, Word::Guid, attributes)?;
    id_or(alloc, source, n, found)
}

fn owner_or(
    alloc: Global,
    source: &Source<'_>,
    attribute: Option<Attribute<'_>>,
) -> Result<Option<FullName>, Stop<ImageFault>>
    ensures { Gives (λ x. x) result (attributes_as.owner_or (tables_in source.now.image) (option_map (attribute_seen source.now.image) attribute.entry)) }
{
    match attribute {
        None => Ok(None),
        Some(attribute) => {
            let name = type_name_of(alloc, source, &attribute)?;
            Ok(Some(name))
        }
    }
}

/// The class to which an interface is exclusive.
pub fn exclusive_to<'a>(
    alloc: Global,
    source: &Source<'a>,
    n: u32,
    attributes: &[Attribute<'a>],
) -> Result<Option<FullName>, Stop<ImageFault>>
    ensures { Gives (λ x. x) result (attributes_as.exclusive_to (tables_in source.now.image) n (map (attribute_seen source.now.image) attributes.now)) }
{
    let offset = source.image.offset(Table::TypeDef, n, 0);
    let found = only_of(alloc, source, offset, Word::ExclusiveTo, attributes)?;
    owner_or(alloc, source, found)
}
