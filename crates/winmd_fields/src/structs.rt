//! Structs.

ghost use Rattle.std.specs.Prelude.{◌≡◌, map};
ghost use Rattle.md_schema.specs.declared.table.Table.TheVariants as tables;
ghost use Rattle.winmd_attributes.specs.Seen.{attribute_seen};
ghost use Rattle.winmd_cells.specs.Given.{Gives};
ghost use Rattle.winmd_cells.specs.Seen.{seen, tables_in};
ghost use Rattle.winmd_rows.specs.Faults.{each};
ghost use Rattle.winmd_sets.specs.Fields as fields_as;
ghost use Rattle.wr_base.specs.Trees.{decl_tree, field_tree, tree_of};

use md_schema::{ImageFault, Table};
use ranked::Stop;
use std::alloc::Global;
use winmd_attributes::{Attribute, version_of};
use winmd_blobs::field_of;
use winmd_source::Source;
use wr_base::{Declaration, Field, FullName, Listed, TypeUse};

/// The type of a field.
pub(crate) fn field_type(
    alloc: Global,
    source: &Source<'_>,
    field: u32,
) -> Result<TypeUse, Stop<ImageFault>>
    ensures { Gives tree_of result (fields_as.field_type (tables_in source.now.image) (seen source.now.image tables.Field field)) }
{
    let blob = source.image.bytes(Table::Field, field, 2)?;
    field_of(
        alloc,
        source,
        source.image.offset(Table::Field, field, 2),
        blob,
    )
}

fn struct_field(alloc: Global, source: &Source<'_>, field: u32) -> Result<Field, Stop<ImageFault>>
    ensures { Gives field_tree result (fields_as.struct_field (tables_in source.now.image) (seen source.now.image tables.Field field)) }
{
    let name = source.name_in(alloc, Table::Field, field, 1)?;
    let ty = field_type(alloc, source, field)?;
    Ok(Field { name, ty })
}

fn struct_fields(
    alloc: Global,
    source: &Source<'_>,
    rows: &[u32],
) -> Result<Vec<Field>, Stop<ImageFault>>
    ensures { Gives (λ x. map field_tree x.items) result (each (fields_as.struct_field (tables_in source.now.image)) (map (seen source.now.image tables.Field) rows.now)) }
{
    let mut fields = Vec::new(alloc);
    let mut rest = rows;
    'each: while let Some((row, after)) = rest.split_first() {
        let field = struct_field(alloc, source, *row)?;
        fields.push(field)?;
        rest = after;
    }
    Ok(fields)
}

/// The struct of this name.
pub fn struct_of<'a>(
    alloc: Global,
    source: &Source<'a>,
    n: u32,
    name: FullName,
    attributes: &[Attribute<'a>],
) -> Result<Declaration, Stop<ImageFault>>
    ensures { Gives decl_tree result (fields_as.struct_of (tables_in source.now.image) n name (map (attribute_seen source.now.image) attributes.now)) }
{
    let version = version_of(alloc, source, n, attributes)?;
    let rows = source.image.list_of(Table::TypeDef, 4, Table::Field, n)?;
    let fields = struct_fields(alloc, source, rows)?;
    Ok(Declaration::Struct {
        name,
        version,
        fields: Listed::from_vec(fields),
    })
}
