//! Methods put together to members.

ghost use Rattle.std.specs.Prelude.{◌≡◌, ◌≤◌, IfOk, length, map};
ghost use Rattle.md_schema.specs.declared.table.Table.TheVariants as tables;
ghost use Rattle.winmd_cells.specs.Given.{Gives};
ghost use Rattle.winmd_cells.specs.Seen.{seen, tables_in};
ghost use Rattle.winmd_lines.specs.Cells as cells_as;
ghost use Rattle.winmd_members.specs.Next.{behind_adder, behind_getter, next_of};
ghost use Rattle.winmd_members.specs.Seen.{item_seen, played_seen};
ghost use Rattle.winmd_sets.specs.Interfaces as interfaces_as;

use crate::roles::{Played, Role};
use md_schema::{ImageFault, ImageKind, Table};
use ranked::Stop;
use std::alloc::Global;
use winmd_source::{Source, refused};

/// A method; a property, with whether it is put; an event.
#[derive(Clone, Copy)]
pub enum Item {
    OfMethod(u32),
    OfProperty(u32, bool),
    OfEvent(u32),
}

/// A fault at a method.
fn bad_shape(source: &Source<'_>, method: u32) -> Stop<ImageFault>
    ensures { result ≡ Stop.Refused (record { kind = ImageKind.BadShape; offset = cells_as.at (tables_in source.now.image) tables.MethodDef method 0 }) }
{
    refused(
        ImageKind::BadShape,
        source.image.offset(Table::MethodDef, method, 0),
    )
}

fn behind_getter<'b>(
    source: &Source<'_>,
    property: u32,
    rest: &'b [Played],
) -> Result<(Item, &'b [Played]), Stop<ImageFault>>
    ensures next { Gives (λ x. (item_seen source.now.image x.0, map (played_seen source.now.image) x.1.now)) result (behind_getter (tables_in source.now.image) (seen source.now.image tables.Property property) (map (played_seen source.now.image) rest.now)) }
    ensures shorter { IfOk result (λ x. length x.1.now ≤ length rest.now) }
{
    match rest.split_first() {
        Some(
            (
                Played {
                    role: Role::Setter(other),
                    method,
                },
                after,
            ),
        ) => {
            if property == *other {
                Ok((Item::OfProperty(property, true), after))
            } else {
                Err(bad_shape(source, *method))
            }
        }
        _ => Ok((Item::OfProperty(property, false), rest)),
    }
}

fn behind_adder<'b>(
    source: &Source<'_>,
    adder: u32,
    event: u32,
    rest: &'b [Played],
) -> Result<(Item, &'b [Played]), Stop<ImageFault>>
    ensures next { Gives (λ x. (item_seen source.now.image x.0, map (played_seen source.now.image) x.1.now)) result (behind_adder (tables_in source.now.image) (cells_as.at (tables_in source.now.image) tables.MethodDef adder 0) (seen source.now.image tables.Event event) (map (played_seen source.now.image) rest.now)) }
    ensures shorter { IfOk result (λ x. length x.1.now ≤ length rest.now) }
{
    match rest.split_first() {
        Some(
            (
                Played {
                    role: Role::Remover(other),
                    ..
                },
                after,
            ),
        ) => {
            if event == *other {
                Ok((Item::OfEvent(event), after))
            } else {
                Err(bad_shape(source, adder))
            }
        }
        _ => Err(bad_shape(source, adder)),
    }
}

/// The item that begins with a method, and the methods behind it.
fn next_of<'b>(
    source: &Source<'_>,
    first: Played,
    rest: &'b [Played],
) -> Result<(Item, &'b [Played]), Stop<ImageFault>>
    ensures next { Gives (λ x. (item_seen source.now.image x.0, map (played_seen source.now.image) x.1.now)) result (next_of (tables_in source.now.image) (played_seen source.now.image first) (map (played_seen source.now.image) rest.now)) }
    ensures shorter { IfOk result (λ x. length x.1.now ≤ length rest.now) }
{
    match first.role {
        Role::Method => Ok((Item::OfMethod(first.method), rest)),
        Role::Getter(property) => behind_getter(source, property, rest),
        Role::Adder(event) => behind_adder(source, first.method, event, rest),
        Role::Setter(_) => Err(bad_shape(source, first.method)),
        Role::Remover(_) => Err(bad_shape(source, first.method)),
    }
}

/// The items of methods: a getter and the setter of its property behind it, an adder and its remover behind it.
#[tactic(auto, using(crate::proofs::ItemLaws::item_on, crate::proofs::ItemLaws::item_stops))]
pub(crate) fn items_of(
    alloc: Global,
    source: &Source<'_>,
    roles: &[Played],
) -> Result<Vec<Item>, Stop<ImageFault>>
    ensures { Gives (λ x. map (item_seen source.now.image) x.items) result (interfaces_as.items_of (tables_in source.now.image) (map (played_seen source.now.image) roles.now)) }
{
    let mut items = Vec::new(alloc);
    let mut rest = roles;
    'each: while let Some((first, after)) = rest.split_first() {
        let (item, others) = next_of(source, *first, after)?;
        items.push(item)?;
        rest = others;
    }
    Ok(items)
}
