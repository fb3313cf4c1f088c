//! Types, as rows state them.

ghost use Rattle.std.specs.Prelude.{◌≡◌, ℕ, None, Ok, bytes_eq, codes, map, option_map, true, if◌then◌else◌};
ghost use Rattle.md_schema.specs.declared.faults.ImageKind.TheVariants.{Nested};
ghost use Rattle.md_schema.specs.declared.table.Table.TheVariants as tables;
ghost use Rattle.winmd_attributes.specs.Seen.{attribute_seen};
ghost use Rattle.winmd_cells.specs.Given.{Gives};
ghost use Rattle.winmd_cells.specs.Names.{full_seen};
ghost use Rattle.winmd_cells.specs.Seen.{seen, tables_in, value_seen};
ghost use Rattle.winmd_kinds.specs.Kinds.{declared, named_by, outer_of, other_type, read_by};
ghost use Rattle.winmd_set.specs.Stated.{set_tree, stated_seen};
ghost use Rattle.winmd_sets.specs.Types as types_as;

use crate::declarations::declaration_of;
use crate::kinds::{Kind, is_null, kind_of};
use crate::names::path_in;
use md_schema::{ImageFault, ImageKind, Table};
use ranked::Stop;
use std::alloc::Global;
use winmd_attributes::{Attribute, attributes_of};
use winmd_cells::{TypeName, Value, has_flag, is_named};
use winmd_set::{Stated, parts_of};
use winmd_source::{Source, refused};
use wr_base::{Declaration, FullName};

/// The most cases, fields or members of a type.
const MOST_PARTS: u64 = 4_000;

fn numbered_type(
    source: &Source<'_>,
    n: u32,
    declaration: Declaration,
) -> Result<Option<Stated>, Stop<ImageFault>>
    ensures { Gives (option_map stated_seen) result (types_as.numbered_type (tables_in source.now.image) n (set_tree declaration)) }
{
    if parts_of(&declaration) <= MOST_PARTS {
        Ok(Some(Stated {
            row: n,
            declaration,
        }))
    } else {
        Err(refused(
            ImageKind::PastLimit,
            source.image.offset(Table::TypeDef, n, 0),
        ))
    }
}

/// The type of this kind and name.
fn declared<'a>(
    alloc: Global,
    source: &Source<'a>,
    n: u32,
    kind: Kind,
    flags: u32,
    name: FullName,
    attributes: &[Attribute<'a>],
) -> Result<Option<Stated>, Stop<ImageFault>>
    ensures { Gives (option_map stated_seen) result (declared kind (tables_in source.now.image) n name flags (map (attribute_seen source.now.image) attributes.now)) }
{
    let declaration = declaration_of(alloc, source, n, kind, flags, name, attributes)?;
    numbered_type(source, n, declaration)
}

/// A type that stands within another is refused.
fn check_outer(source: &Source<'_>, n: u32) -> Result<(), Stop<ImageFault>>
    ensures { Gives (λ x. true) result (outer_of (tables_in source.now.image) n) }
{
    match source.nested_of(n) {
        [] => Ok(()),
        [row, ..] => Err(refused(
            ImageKind::Nested,
            source.image.offset(Table::NestedClass, *row, 0),
        )),
    }
}

/// The type of a row, of this kind.
fn read_type(
    alloc: Global,
    source: &Source<'_>,
    n: u32,
    kind: Kind,
    flags: u32,
    full: &TypeName<'_>,
) -> Result<Option<Stated>, Stop<ImageFault>>
    ensures { Gives (option_map stated_seen) result (read_by kind (tables_in source.now.image) n flags (full_seen full.now)) }
{
    check_outer(source, n)?;
    let name = path_in(alloc, source.image.offset(Table::TypeDef, n, 1), full)?;
    let attributes = attributes_of(alloc, source, source.attributes_of_type(n))?;
    declared(alloc, source, n, kind, flags, name, attributes.as_slice())
}

/// The full name of what a row's type extends, for its cell at an offset; none where it extends nothing.
fn base_at<'a>(
    source: &Source<'a>,
    offset: u64,
    extends: Value<'_>,
) -> Result<TypeName<'a>, Stop<ImageFault>>
    ensures { Gives full_seen result (types_as.base_at (tables_in source.now.image) offset (value_seen extends.entry)) }
{
    if is_null(extends) {
        Ok(TypeName {
            space: &[],
            name: &[],
        })
    } else {
        source.image.named_at(offset, extends)
    }
}

/// The type of this full name, which extends this, unless that makes it an attribute.
fn type_by(
    alloc: Global,
    source: &Source<'_>,
    n: u32,
    flags: u32,
    full: &TypeName<'_>,
    extends: Value<'_>,
    base: &TypeName<'_>,
) -> Result<Option<Stated>, Stop<ImageFault>>
    ensures { Gives (option_map stated_seen) result (named_by (tables_in source.now.image) (seen source.now.image tables.TypeDef n) flags (full_seen full.now) (value_seen extends.entry) (full_seen base.now)) }
{
    if is_named(base, b"System.Attribute") {
        Ok(None)
    } else {
        read_type(alloc, source, n, kind_of(flags, extends, base), flags, full)
    }
}

/// The type of this full name.
fn named_type(
    alloc: Global,
    source: &Source<'_>,
    n: u32,
    flags: u32,
    full: &TypeName<'_>,
) -> Result<Option<Stated>, Stop<ImageFault>>
    ensures { Gives (option_map stated_seen) result (types_as.named_type (tables_in source.now.image) (seen source.now.image tables.TypeDef n) flags (full_seen full.now)) }
{
    let extends = source.image.cell(Table::TypeDef, n, 3)?;
    let base = base_at(source, source.image.offset(Table::TypeDef, n, 3), extends)?;
    type_by(alloc, source, n, flags, full, extends, &base)
}

fn other_type(
    alloc: Global,
    source: &Source<'_>,
    n: u32,
    flags: u32,
) -> Result<Option<Stated>, Stop<ImageFault>>
    ensures { Gives (option_map stated_seen) result (other_type (tables_in source.now.image) (seen source.now.image tables.TypeDef n) flags) }
{
    let full = source.image.full_name_in(Table::TypeDef, n)?;
    named_type(alloc, source, n, flags, &full)
}

fn is_module(name: &[u8]) -> bool
    ensures { result ≡ bytes_eq name.now (codes "<Module>") }
{
    name == "<Module>".as_bytes()
}

/// The type of these flags, unless its name is that of the module.
fn flagged_type(
    alloc: Global,
    source: &Source<'_>,
    n: u32,
    flags: u32,
) -> Result<Option<Stated>, Stop<ImageFault>>
    ensures { Gives (option_map stated_seen) result (types_as.flagged_type (tables_in source.now.image) (seen source.now.image tables.TypeDef n) flags) }
{
    let name = source.image.bytes(Table::TypeDef, n, 1)?;
    if is_module(name) {
        Ok(None)
    } else {
        other_type(alloc, source, n, flags)
    }
}

/// What a row of TypeDef states, by its number, which counts from 1. Nothing, where it lacks flag 0x4000 (WindowsRuntime), is named `<Module>` or
/// extends `System.Attribute`.
pub fn type_of(
    alloc: Global,
    source: &Source<'_>,
    row: u32,
) -> Result<Option<Stated>, Stop<ImageFault>>
    ensures { Gives (option_map stated_seen) result (types_as.type_of (tables_in source.now.image) (seen source.now.image tables.TypeDef row)) }
{
    let flags = source.image.number(Table::TypeDef, row, 0)?;
    if has_flag(flags, 0x4000) {
        flagged_type(alloc, source, row, flags)
    } else {
        Ok(None)
    }
}
