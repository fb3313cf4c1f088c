//! Generic parameters of types (ECMA-335 II.22.20).

ghost use Rattle.std.specs.Prelude.{◌≡◌, ◌==◌, IfOk, map, true};
ghost use Rattle.std.specs.List.{filter};
ghost use Rattle.md_schema.specs.Schema.{place_of};
ghost use Rattle.md_schema.specs.declared.faults.ImageKind.TheVariants.{GenericDefinition};
ghost use Rattle.md_schema.specs.declared.table.Table.TheVariants as tables;
ghost use Rattle.winmd_cells.specs.Given.{Gives};
ghost use Rattle.winmd_cells.specs.Seen.{row_seen, seen, tables_in, value_seen};
ghost use Rattle.winmd_lines.specs.Cells as cells_as;
ghost use Rattle.winmd_lists.specs.Begun.{is_generic};
ghost use Rattle.winmd_sets.specs.Types as types_as;

use md_schema::{ImageFault, ImageKind, Table};
use ranked::{Memory, Stop};
use std::alloc::AllocError;
use winmd_cells::{Image, Value};
use winmd_source::refused;

#[tactic(auto, using(crate::proofs::ListLaws::other))]
fn is_type(table: Table) -> bool
    ensures { result ≡ (place_of tables.TypeDef == place_of table) }
{
    match table {
        Table::TypeDef => true,
        _ => false,
    }
}

fn leads_into_type(value: Value<'_>) -> bool
    ensures { result ≡ cells_as.leads_into tables.TypeDef (value_seen value.entry) }
{
    match value {
        Value::To(table, _) => is_type(table),
        _ => false,
    }
}

fn is_generic(image: &Image<'_>, n: u32) -> Result<bool, Memory>
    ensures { IfOk result (λ x. x ≡ is_generic (seen image.now tables.GenericParam n)) }
{
    match image.cell(Table::GenericParam, n, 2) {
        Ok(value) => Ok(leads_into_type(value)),
        Err(Stop::Memory) => Err(AllocError),
        Err(Stop::Refused(_)) => Ok(false),
    }
}

fn none_among(image: &Image<'_>, rows: &[u32]) -> Result<(), Stop<ImageFault>>
    ensures { Gives (λ x. true) result (cells_as.none_of GenericDefinition (λ n. cells_as.at (tables_in image.now) tables.GenericParam n 2) (filter is_generic (map (seen image.now tables.GenericParam) rows.now))) }
{
    let mut rest = rows;
    'each: while let Some((row, after)) = rest.split_first() {
        if is_generic(image, *row)? {
            return Err(refused(
                ImageKind::GenericDefinition,
                image.offset(Table::GenericParam, *row, 2),
            ));
        }
        rest = after;
    }
    Ok(())
}

/// That no type has a generic parameter, or the first that has one: GenericDefinition at the cell that says whose the parameter is.
#[tactic(auto, using(crate::proofs::ListLaws::all_seen))]
pub fn none_generic(image: &Image<'_>) -> Result<(), Stop<ImageFault>>
    ensures { Gives (λ x. true) result (types_as.none_generic (tables_in image.now)) }
{
    none_among(image, image.all_rows(Table::GenericParam))
}
