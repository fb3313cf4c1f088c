//! The declaration of a type of each kind.

ghost use Rattle.std.specs.Prelude.{◌≡◌, map};
ghost use Rattle.winmd_attributes.specs.Seen.{attribute_seen};
ghost use Rattle.winmd_cells.specs.Given.{Gives};
ghost use Rattle.winmd_cells.specs.Seen.{tables_in};
ghost use Rattle.winmd_kinds.specs.Kinds.{of_kind};
ghost use Rattle.winmd_set.specs.Stated.{set_tree};
ghost use Rattle.winmd_sets.specs.Fields as fields_as;
ghost use Rattle.winmd_sets.specs.Methods as methods_as;

use crate::kinds::Kind;
use md_schema::{ImageFault, ImageKind, Table};
use ranked::Stop;
use std::alloc::Global;
use winmd_attributes::Attribute;
use winmd_classes::{class_of, interface_of};
use winmd_fields::{enum_of, struct_of};
use winmd_methods::delegate_of;
use winmd_source::{Source, refused};
use wr_base::{Declaration, FullName};

// No list of an enum, a struct or a delegate stands for a set, so each is as sets have it.
fn stated_enum<'a>(
    alloc: Global,
    source: &Source<'a>,
    n: u32,
    name: FullName,
    attributes: &[Attribute<'a>],
) -> Result<Declaration, Stop<ImageFault>>
    ensures { Gives set_tree result (fields_as.enum_of (tables_in source.now.image) n name (map (attribute_seen source.now.image) attributes.now)) }
{
    enum_of(alloc, source, n, name, attributes)
}

fn stated_struct<'a>(
    alloc: Global,
    source: &Source<'a>,
    n: u32,
    name: FullName,
    attributes: &[Attribute<'a>],
) -> Result<Declaration, Stop<ImageFault>>
    ensures { Gives set_tree result (fields_as.struct_of (tables_in source.now.image) n name (map (attribute_seen source.now.image) attributes.now)) }
{
    struct_of(alloc, source, n, name, attributes)
}

fn stated_delegate<'a>(
    alloc: Global,
    source: &Source<'a>,
    n: u32,
    name: FullName,
    attributes: &[Attribute<'a>],
) -> Result<Declaration, Stop<ImageFault>>
    ensures { Gives set_tree result (methods_as.delegate_of (tables_in source.now.image) n name (map (attribute_seen source.now.image) attributes.now)) }
{
    delegate_of(alloc, source, n, name, attributes)
}

/// The declaration of a type of this kind, with this name. Refused where the cell Extends stands: RowRange for a type that extends nothing,
/// BadShape for one that extends another type.
pub(crate) fn declaration_of<'a>(
    alloc: Global,
    source: &Source<'a>,
    n: u32,
    kind: Kind,
    flags: u32,
    name: FullName,
    attributes: &[Attribute<'a>],
) -> Result<Declaration, Stop<ImageFault>>
    ensures { Gives set_tree result (of_kind kind (tables_in source.now.image) n name flags (map (attribute_seen source.now.image) attributes.now)) }
{
    match kind {
        Kind::Interface => interface_of(alloc, source, n, name, attributes),
        Kind::Enum => stated_enum(alloc, source, n, name, attributes),
        Kind::Struct => stated_struct(alloc, source, n, name, attributes),
        Kind::Delegate => stated_delegate(alloc, source, n, name, attributes),
        Kind::Class => class_of(alloc, source, n, flags, name, attributes),
        Kind::Nothing => Err(refused(
            ImageKind::RowRange,
            source.image.offset(Table::TypeDef, n, 3),
        )),
        Kind::Other => Err(refused(
            ImageKind::BadShape,
            source.image.offset(Table::TypeDef, n, 3),
        )),
    }
}
