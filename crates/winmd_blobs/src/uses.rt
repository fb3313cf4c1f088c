//! The type that a cell names.

ghost use Rattle.md_schema.specs.declared.table.Table.TheVariants as tables;
ghost use Rattle.wr_base.specs.Trees.{tree_of};
ghost use Rattle.winmd_blobs.specs.Named.{use_named};
ghost use Rattle.winmd_cells.specs.Given.{Gives};
ghost use Rattle.winmd_cells.specs.Seen.{seen, tables_in, value_seen};
ghost use Rattle.winmd_rows.specs.Values.{To as to_value};
ghost use Rattle.winmd_sets.specs.Uses as uses_as;

use crate::signatures::spec_of;
use md_schema::{ImageFault, Table};
use ranked::Stop;
use std::alloc::Global;
use winmd_cells::{Value, joined};
use winmd_source::{Source, full_name};
use wr_base::TypeUse;

#[tactic(auto, using(wr_base::proofs::TreeLaws::tree_Reference))]
fn use_of_name(alloc: Global, offset: u64, name: &[u8]) -> Result<TypeUse, Stop<ImageFault>>
    ensures { Gives tree_of result (uses_as.use_of_name offset name.now) }
{
    let path = full_name(alloc, offset, name)?;
    Ok(TypeUse::Reference(path))
}

fn use_named(
    alloc: Global,
    source: &Source<'_>,
    offset: u64,
    value: Value<'_>,
) -> Result<TypeUse, Stop<ImageFault>>
    ensures { Gives tree_of result (use_named (tables_in source.now.image) offset (value_seen value.entry)) }
{
    let name = source.image.named_at(offset, value)?;
    let bytes = joined(alloc, &name)?;
    use_of_name(alloc, offset, bytes.as_slice())
}

/// What a TypeSpec spells, for a cell at an offset.
fn use_in_spec(
    alloc: Global,
    source: &Source<'_>,
    offset: u64,
    n: u32,
) -> Result<TypeUse, Stop<ImageFault>>
    ensures { Gives tree_of result (uses_as.use_of_cell (tables_in source.now.image) offset (to_value tables.TypeSpec n)) }
{
    let row = source.image.row_at(Table::TypeSpec, n, offset)?;
    let blob = source.image.bytes(Table::TypeSpec, row, 0)?;
    spec_of(
        alloc,
        source,
        source.image.offset(Table::TypeSpec, n, 0),
        blob,
    )
}

fn use_of_cell(
    alloc: Global,
    source: &Source<'_>,
    offset: u64,
    value: Value<'_>,
) -> Result<TypeUse, Stop<ImageFault>>
    ensures { Gives tree_of result (uses_as.use_of_cell (tables_in source.now.image) offset (value_seen value.entry)) }
{
    match value {
        Value::To(Table::TypeSpec, n) => use_in_spec(alloc, source, offset, n),
        _ => use_named(alloc, source, offset, value),
    }
}

/// The type that a cell names, by its full name or by a TypeSpec.
pub fn use_in(
    alloc: Global,
    source: &Source<'_>,
    table: Table,
    n: u32,
    column: usize,
) -> Result<TypeUse, Stop<ImageFault>>
    ensures { Gives tree_of result (uses_as.use_in (tables_in source.now.image) table (seen source.now.image table n) column) }
{
    let value = source.image.cell(table, n, column)?;
    use_of_cell(alloc, source, source.image.offset(table, n, column), value)
}
