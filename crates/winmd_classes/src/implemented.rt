//! The interfaces of a type.

ghost use Rattle.std.specs.Prelude.{◌≡◌, IfOk, map};
ghost use Rattle.md_schema.specs.declared.table.Table.TheVariants as tables;
ghost use Rattle.winmd_cells.specs.Given.{Gives};
ghost use Rattle.winmd_cells.specs.Seen.{seen, tables_in};
ghost use Rattle.winmd_classes.specs.Parts.{implemented_in, types_in};
ghost use Rattle.winmd_classes.specs.Seen.{implemented_seen};
ghost use Rattle.winmd_rows.specs.Faults.{each};
ghost use Rattle.winmd_sets.specs.Interfaces as interfaces_as;
ghost use Rattle.wr_base.specs.Trees.{tree_of};

use md_schema::{ImageFault, Table};
use ranked::{Memory, Stop};
use std::alloc::Global;
use winmd_blobs::use_in;
use winmd_source::Source;
use wr_base::TypeUse;

/// A row of InterfaceImpl, and the interface that it names.
#[derive(Drop)]
pub struct Implemented {
    pub row: u32,
    pub ty: TypeUse,
}

fn implemented_in(
    alloc: Global,
    source: &Source<'_>,
    row: u32,
) -> Result<Implemented, Stop<ImageFault>>
    ensures { Gives implemented_seen result (implemented_in (tables_in source.now.image) (seen source.now.image tables.InterfaceImpl row)) }
{
    let ty = use_in(alloc, source, Table::InterfaceImpl, row, 1)?;
    Ok(Implemented { row, ty })
}

fn all_implemented(
    alloc: Global,
    source: &Source<'_>,
    rows: &[u32],
) -> Result<Vec<Implemented>, Stop<ImageFault>>
    ensures { Gives (λ x. map implemented_seen x.items) result (each (implemented_in (tables_in source.now.image)) (map (seen source.now.image tables.InterfaceImpl) rows.now)) }
{
    let mut interfaces = Vec::new(alloc);
    let mut rest = rows;
    'each: while let Some((row, after)) = rest.split_first() {
        let interface = implemented_in(alloc, source, *row)?;
        interfaces.push(interface)?;
        rest = after;
    }
    Ok(interfaces)
}

/// The interfaces of the type in a row, in the order of their rows.
pub(crate) fn interfaces_of(
    alloc: Global,
    source: &Source<'_>,
    n: u32,
) -> Result<Vec<Implemented>, Stop<ImageFault>>
    ensures { Gives (λ x. map implemented_seen x.items) result (interfaces_as.interfaces_of (tables_in source.now.image) n) }
{
    all_implemented(alloc, source, source.interfaces_of(n))
}

fn types(alloc: Global, interfaces: Vec<Implemented>) -> Result<Vec<TypeUse>, Memory>
    ensures { IfOk result (λ x. x.items ≡ map (λ entry. entry.ty) interfaces.items) }
{
    let mut types = Vec::new(alloc);
    for interface in interfaces {
        types.push(interface.ty)?;
    }
    Ok(types)
}

/// The interfaces without their rows.
#[tactic(auto, using(crate::proofs::SeenLaws::types_seen))]
pub(crate) fn types_of(alloc: Global, interfaces: Vec<Implemented>) -> Result<Vec<TypeUse>, Memory>
    ensures { IfOk result (λ x. map tree_of x.items ≡ types_in (map implemented_seen interfaces.items)) }
{
    types(alloc, interfaces)
}
