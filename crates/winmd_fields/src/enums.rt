//! Enums.

ghost use Rattle.std.specs.Prelude.{◌≡◌, map, true};
ghost use Rattle.md_schema.specs.declared.table.Table.TheVariants as tables;
ghost use Rattle.winmd_attributes.specs.Seen.{attribute_seen};
ghost use Rattle.winmd_cells.specs.Given.{Gives};
ghost use Rattle.winmd_cells.specs.Seen.{seen, tables_in};
ghost use Rattle.winmd_fields.specs.Seen.{held, holder_type, mark_seen, named_flags, value_named};
ghost use Rattle.winmd_rows.specs.Faults.{each};
ghost use Rattle.winmd_sets.specs.Fields as fields_as;
ghost use Rattle.wr_base.specs.Trees.{decl_tree, tree_of};

use crate::constants::cases_of;
use crate::marks::{Mark, marks, of_mark};
use crate::structs::field_type;
use md_schema::{ImageFault, ImageKind, Table};
use ranked::Stop;
use std::alloc::Global;
use winmd_attributes::{Attribute, version_of};
use winmd_source::{Source, refused};
use wr_base::{Base, Case, Declaration, FullName, Listed, TypeUse};

#[tactic(auto, using(wr_base::proofs::TreeLaws::tree_Plain, wr_base::proofs::TreeLaws::tree_Value, wr_base::proofs::TreeLaws::tree_Reference, wr_base::proofs::TreeLaws::tree_Inst))]
fn flags_of(offset: u64, kind: &TypeUse) -> Result<bool, Stop<ImageFault>>
    ensures { Gives (λ x. x) result (fields_as.flags_of offset (tree_of kind.now)) }
{
    match kind {
        TypeUse::Plain(Base::I32) => Ok(false),
        TypeUse::Plain(Base::U32) => Ok(true),
        _ => Err(refused(ImageKind::BadShape, offset)),
    }
}

/// The type of the field that holds the value, by which the enum has flags or hasn't.
fn holder_type(alloc: Global, source: &Source<'_>, holder: u32) -> Result<bool, Stop<ImageFault>>
    ensures { Gives (λ x. x) result (holder_type (tables_in source.now.image) (seen source.now.image tables.Field holder)) }
{
    let kind = field_type(alloc, source, holder)?;
    flags_of(source.image.offset(Table::Field, holder, 2), &kind)
}

fn value_named(offset: u64, flags: bool, name: &[u8]) -> Result<bool, Stop<ImageFault>>
    ensures { Gives (λ x. x) result (value_named offset flags name.now) }
{
    if name == "value__".as_bytes() {
        Ok(flags)
    } else {
        Err(refused(ImageKind::BadShape, offset))
    }
}

fn named_flags(alloc: Global, source: &Source<'_>, holder: u32) -> Result<bool, Stop<ImageFault>>
    ensures { Gives (λ x. x) result (named_flags (tables_in source.now.image) (seen source.now.image tables.Field holder)) }
{
    let flags = holder_type(alloc, source, holder)?;
    let name = source.image.bytes(Table::Field, holder, 1)?;
    value_named(source.image.offset(Table::Field, holder, 1), flags, name)
}

fn holder_flags(alloc: Global, source: &Source<'_>, holder: u32) -> Result<bool, Stop<ImageFault>>
    ensures { Gives (λ x. x) result (fields_as.holder_flags (tables_in source.now.image) (seen source.now.image tables.Field holder)) }
{
    named_flags(alloc, source, holder)
}

/// Whether the enum has flags, by the one field that is no case.
fn held(
    alloc: Global,
    source: &Source<'_>,
    n: u32,
    marks: &[Mark],
) -> Result<bool, Stop<ImageFault>>
    ensures { Gives (λ x. x) result (held (tables_in source.now.image) n (map (mark_seen source.now.image) marks.now)) }
{
    let others = of_mark(alloc, source, false, marks)?;
    let holder = source.the_one(
        Table::Field,
        source.image.offset(Table::TypeDef, n, 4),
        others.as_slice(),
    )?;
    holder_flags(alloc, source, holder)
}

fn marked_cases(
    alloc: Global,
    source: &Source<'_>,
    flags: bool,
    marks: &[Mark],
) -> Result<Vec<Case>, Stop<ImageFault>>
    ensures { Gives (λ x. x.items) result (each (fields_as.case_of (tables_in source.now.image) flags) (fields_as.of_mark true (map (mark_seen source.now.image) marks.now))) }
{
    let fields = of_mark(alloc, source, true, marks)?;
    cases_of(alloc, source, flags, fields.as_slice())
}

fn enum_from(
    alloc: Global,
    source: &Source<'_>,
    n: u32,
    name: FullName,
    version: u32,
    marks: &[Mark],
) -> Result<Declaration, Stop<ImageFault>>
    ensures { Gives decl_tree result (fields_as.enum_from (tables_in source.now.image) n name version (map (mark_seen source.now.image) marks.now)) }
{
    let flags = held(alloc, source, n, marks)?;
    let cases = marked_cases(alloc, source, flags, marks)?;
    Ok(Declaration::Enum {
        name,
        version,
        flags,
        cases: Listed::from_vec(cases),
    })
}

/// The enum of this name.
pub fn enum_of<'a>(
    alloc: Global,
    source: &Source<'a>,
    n: u32,
    name: FullName,
    attributes: &[Attribute<'a>],
) -> Result<Declaration, Stop<ImageFault>>
    ensures { Gives decl_tree result (fields_as.enum_of (tables_in source.now.image) n name (map (attribute_seen source.now.image) attributes.now)) }
{
    let version = version_of(alloc, source, n, attributes)?;
    let fields = source.image.list_of(Table::TypeDef, 4, Table::Field, n)?;
    let marks = marks(alloc, source, fields)?;
    enum_from(alloc, source, n, name, version, marks.as_slice())
}
