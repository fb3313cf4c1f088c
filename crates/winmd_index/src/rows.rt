//! Rows by those to which they belong.

ghost use Rattle.std.specs.Prelude.{◌≡◌, ◌≤◌, ℕ, IfOk, get_or, length};
ghost use Rattle.md_schema.specs.declared.table.Table.TheVariants as tables;
ghost use Rattle.winmd_cells.specs.Indexed.{IsIndex};
ghost use Rattle.winmd_cells.specs.Seen.{tables_in};
ghost use Rattle.winmd_sets.specs.Attributes.{owner_of};

use crate::owners::owners_of;
use md_schema::Table;
use ranked::Memory;
use std::alloc::Global;
use winmd_cells::{Image, index};
use winmd_source::{AttributeRows, PartRows};

/// The rows of parts.
pub fn part_rows(alloc: Global, image: &Image<'_>) -> Result<PartRows, Memory>
    ensures constants { IfOk result (λ rows. IsIndex image.now tables.Constant 2 tables.Field rows.constants.items) }
    ensures interfaces { IfOk result (λ rows. IsIndex image.now tables.InterfaceImpl 0 tables.TypeDef rows.interfaces.items) }
    ensures semantics { IfOk result (λ rows. IsIndex image.now tables.MethodSemantics 1 tables.MethodDef rows.semantics.items) }
    ensures nested { IfOk result (λ rows. IsIndex image.now tables.NestedClass 0 tables.TypeDef rows.nested.items) }
{
    let constants = index(alloc, image, Table::Constant, 2, Table::Field)?;
    let interfaces = index(alloc, image, Table::InterfaceImpl, 0, Table::TypeDef)?;
    let semantics = index(alloc, image, Table::MethodSemantics, 1, Table::MethodDef)?;
    let nested = index(alloc, image, Table::NestedClass, 0, Table::TypeDef)?;
    Ok(PartRows {
        constants,
        interfaces,
        semantics,
        nested,
    })
}

/// The rows of attributes.
pub fn attribute_rows(alloc: Global, image: &Image<'_>) -> Result<AttributeRows, Memory>
    ensures of_types { IfOk result (λ rows. IsIndex image.now tables.CustomAttribute 0 tables.TypeDef rows.of_types.items) }
    ensures of_methods { IfOk result (λ rows. IsIndex image.now tables.CustomAttribute 0 tables.MethodDef rows.of_methods.items) }
    ensures of_interfaces { IfOk result (λ rows. IsIndex image.now tables.CustomAttribute 0 tables.InterfaceImpl rows.of_interfaces.items) }
    ensures owners { IfOk result (λ rows. (n : ℕ) → n ≤ length ((tables_in image.now).rows tables.MethodDef) → get_or rows.owners.items n 0 ≡ owner_of (tables_in image.now) n) }
{
    let of_types = index(alloc, image, Table::CustomAttribute, 0, Table::TypeDef)?;
    let of_methods = index(alloc, image, Table::CustomAttribute, 0, Table::MethodDef)?;
    let of_interfaces = index(
        alloc,
        image,
        Table::CustomAttribute,
        0,
        Table::InterfaceImpl,
    )?;
    let owners = owners_of(alloc, image)?;
    Ok(AttributeRows {
        of_types,
        of_methods,
        of_interfaces,
        owners,
    })
}
