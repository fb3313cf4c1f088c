//! What members say.

ghost use Rattle.std.specs.Prelude.{◌≡◌, [], map, option_map};
ghost use Rattle.md_schema.specs.declared.table.Table.TheVariants as tables;
ghost use Rattle.winmd_attributes.specs.Seen.{attribute_seen};
ghost use Rattle.winmd_cells.specs.Given.{Gives};
ghost use Rattle.winmd_cells.specs.Seen.{seen, tables_in};
ghost use Rattle.winmd_members.specs.Earlier.{count_at, member_by, property_by, property_type};
ghost use Rattle.winmd_members.specs.Seen.{item_seen};
ghost use Rattle.winmd_sets.specs.Interfaces as interfaces_as;
ghost use Rattle.wr_base.specs.Trees.{member_tree, tree_of};

use crate::earlier::{count_in, note, numbered_name};
use crate::items::Item;
use md_schema::{ImageFault, Table};
use ranked::{Name, Stop};
use std::alloc::Global;
use std::collections::BTreeMap;
use winmd_attributes::{Attribute, Word, abi_name, attributes_of, only_of};
use winmd_blobs::{property_of, use_in};
use winmd_methods::signature_of;
use winmd_source::{Source, name_of};
use wr_base::{Member, TypeUse};

fn abi_or(
    alloc: Global,
    source: &Source<'_>,
    row: u32,
    name: &str,
    before: u64,
    attribute: Option<Attribute<'_>>,
) -> Result<Name, Stop<ImageFault>>
    ensures { Gives (λ x. x) result (interfaces_as.abi_or (tables_in source.now.image) (seen source.now.image tables.MethodDef row) (interfaces_as.numbered_name name.now before) (option_map (attribute_seen source.now.image) attribute.entry)) }
{
    match attribute {
        Some(attribute) => abi_name(alloc, source, &attribute),
        None => {
            let text = numbered_name(alloc, name, before)?;
            name_of(
                alloc,
                511,
                source.image.offset(Table::MethodDef, row, 3),
                text.as_str().as_bytes(),
            )
        }
    }
}

/// The name in the ABI of a method behind so many of its name.
fn abi_of(
    alloc: Global,
    source: &Source<'_>,
    row: u32,
    name: &str,
    before: u64,
) -> Result<Name, Stop<ImageFault>>
    ensures { Gives (λ x. x) result (interfaces_as.abi_of (tables_in source.now.image) (seen source.now.image tables.MethodDef row) (interfaces_as.numbered_name name.now before)) }
{
    let attributes = attributes_of(alloc, source, source.attributes_of_method(row))?;
    let overload = only_of(
        alloc,
        source,
        source.image.offset(Table::MethodDef, row, 0),
        Word::Overload,
        attributes.as_slice(),
    )?;
    abi_or(alloc, source, row, name, before, overload)
}

/// The same behind the methods that are counted.
fn slot_of(
    alloc: Global,
    source: &Source<'_>,
    counts: &BTreeMap<String, u64>,
    row: u32,
    name: &str,
) -> Result<Name, Stop<ImageFault>>
    ensures { Gives (λ x. x) result (interfaces_as.abi_of (tables_in source.now.image) (seen source.now.image tables.MethodDef row) (interfaces_as.numbered_name name.now (count_at counts.now name.now))) }
{
    let before = count_in(counts, name);
    abi_of(alloc, source, row, name, before)
}

fn method_at(
    alloc: Global,
    source: &Source<'_>,
    counts: &BTreeMap<String, u64>,
    row: u32,
) -> Result<Member, Stop<ImageFault>>
    ensures { Gives member_tree result (member_by (tables_in source.now.image) (count_at counts.now) (interfaces_as.OfMethod (seen source.now.image tables.MethodDef row))) }
{
    let name = source.name_in(alloc, Table::MethodDef, row, 3)?;
    let abi = slot_of(alloc, source, counts, row, name.as_str())?;
    let sig = signature_of(alloc, source, row)?;
    Ok(Member::Method { name, abi, sig })
}

fn property_type(alloc: Global, source: &Source<'_>, row: u32) -> Result<TypeUse, Stop<ImageFault>>
    ensures { Gives tree_of result (property_type (tables_in source.now.image) (seen source.now.image tables.Property row)) }
{
    let blob = source.image.bytes(Table::Property, row, 2)?;
    property_of(
        alloc,
        source,
        source.image.offset(Table::Property, row, 2),
        blob,
    )
}

fn property_at(
    alloc: Global,
    source: &Source<'_>,
    row: u32,
    put: bool,
) -> Result<Member, Stop<ImageFault>>
    ensures { Gives member_tree result (property_by (tables_in source.now.image) (seen source.now.image tables.Property row) put) }
{
    let name = source.name_in(alloc, Table::Property, row, 1)?;
    let ty = property_type(alloc, source, row)?;
    Ok(Member::Property { name, ty, put })
}

fn event_at(alloc: Global, source: &Source<'_>, row: u32) -> Result<Member, Stop<ImageFault>>
    ensures { Gives member_tree result (interfaces_as.member_of (tables_in source.now.image) [] (interfaces_as.OfEvent (seen source.now.image tables.Event row))) }
{
    let name = source.name_in(alloc, Table::Event, row, 1)?;
    let ty = use_in(alloc, source, Table::Event, row, 2)?;
    Ok(Member::Event { name, ty })
}

fn member_of(
    alloc: Global,
    source: &Source<'_>,
    counts: &BTreeMap<String, u64>,
    item: Item,
) -> Result<Member, Stop<ImageFault>>
    ensures { Gives member_tree result (member_by (tables_in source.now.image) (count_at counts.now) (item_seen source.now.image item)) }
{
    match item {
        Item::OfMethod(row) => method_at(alloc, source, counts, row),
        Item::OfProperty(row, put) => property_at(alloc, source, row, put),
        Item::OfEvent(row) => event_at(alloc, source, row),
    }
}

/// The members of items.
pub(crate) fn members_of(
    alloc: Global,
    source: &Source<'_>,
    items: &[Item],
) -> Result<Vec<Member>, Stop<ImageFault>>
    ensures { Gives (λ x. map member_tree x.items) result (interfaces_as.members_of (tables_in source.now.image) [] (map (item_seen source.now.image) items.now)) }
{
    let mut counts = BTreeMap::new(alloc);
    let mut members = Vec::new(alloc);
    let mut rest = items;
    'each: while let Some((item, after)) = rest.split_first() {
        let member = member_of(alloc, source, &counts, *item)?;
        note(alloc, &mut counts, &member)?;
        members.push(member)?;
        rest = after;
    }
    Ok(members)
}
