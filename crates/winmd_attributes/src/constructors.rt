//! Attributes with their constructors.

ghost use Rattle.std.specs.Prelude.{◌≡◌, map};
ghost use Rattle.md_schema.specs.declared.table.Table.TheVariants as tables;
ghost use Rattle.winmd_attributes.specs.Seen.{attribute_seen, made_seen, maker_column, maker_offset, maker_row};
ghost use Rattle.winmd_cells.specs.Given.{Gives};
ghost use Rattle.winmd_cells.specs.Seen.{seen, tables_in, value_seen};
ghost use Rattle.winmd_lines.specs.Cells as cells_as;
ghost use Rattle.winmd_rows.specs.Faults.{each};
ghost use Rattle.winmd_rows.specs.Values.{To as to_value};
ghost use Rattle.winmd_sets.specs.Attributes as attributes_as;

use md_schema::{ImageFault, Table};
use ranked::Stop;
use std::alloc::Global;
use winmd_cells::{TypeName, Value};
use winmd_source::Source;

/// The row of a constructor: of MemberRef, of MethodDef, or none.
#[derive(Clone, Copy)]
pub enum Maker {
    Reference(u32),
    Method(u32),
    Nothing,
}

/// A constructor, and the full name of its type.
#[derive(Clone, Copy)]
pub struct Made<'a> {
    pub type_: TypeName<'a>,
    pub maker: Maker,
}

/// A row of CustomAttribute.
#[derive(Clone, Copy)]
pub struct Attribute<'a> {
    pub made: Made<'a>,
    pub row: u32,
}

fn by_reference<'a>(source: &Source<'a>, offset: u64, n: u32) -> Result<Made<'a>, Stop<ImageFault>>
    ensures { Gives (made_seen source.now.image) result (attributes_as.constructor_at (tables_in source.now.image) offset (to_value tables.MemberRef n)) }
{
    source.check_row(Table::MemberRef, n, offset)?;
    let class = source.image.cell(Table::MemberRef, n, 0)?;
    let type_ = source
        .image
        .named_at(source.image.offset(Table::MemberRef, n, 0), class)?;
    Ok(Made {
        type_,
        maker: Maker::Reference(n),
    })
}

fn by_method<'a>(source: &Source<'a>, offset: u64, n: u32) -> Result<Made<'a>, Stop<ImageFault>>
    ensures { Gives (made_seen source.now.image) result (attributes_as.constructor_at (tables_in source.now.image) offset (to_value tables.MethodDef n)) }
{
    source.check_row(Table::MethodDef, n, offset)?;
    let owner = source.owner_of(n);
    let type_ = source
        .image
        .named_at(offset, Value::To(Table::TypeDef, owner))?;
    Ok(Made {
        type_,
        maker: Maker::Method(n),
    })
}

fn constructor_at<'a>(
    source: &Source<'a>,
    offset: u64,
    value: Value<'_>,
) -> Result<Made<'a>, Stop<ImageFault>>
    ensures { Gives (made_seen source.now.image) result (attributes_as.constructor_at (tables_in source.now.image) offset (value_seen value.entry)) }
{
    match value {
        Value::To(Table::MemberRef, n) => by_reference(source, offset, n),
        Value::To(Table::MethodDef, n) => by_method(source, offset, n),
        _ => Ok(Made {
            type_: TypeName {
                space: &[],
                name: &[],
            },
            maker: Maker::Nothing,
        }),
    }
}

fn attribute_of<'a>(source: &Source<'a>, row: u32) -> Result<Attribute<'a>, Stop<ImageFault>>
    ensures { Gives (attribute_seen source.now.image) result (attributes_as.attribute_of (tables_in source.now.image) (seen source.now.image tables.CustomAttribute row)) }
{
    let maker = source.image.cell(Table::CustomAttribute, row, 1)?;
    let made = constructor_at(
        source,
        source.image.offset(Table::CustomAttribute, row, 1),
        maker,
    )?;
    Ok(Attribute { made, row })
}

/// The attributes of rows of CustomAttribute.
pub fn attributes_of<'a>(
    alloc: Global,
    source: &Source<'a>,
    rows: &[u32],
) -> Result<Vec<Attribute<'a>>, Stop<ImageFault>>
    ensures { Gives (λ x. map (attribute_seen source.now.image) x.items) result (each (attributes_as.attribute_of (tables_in source.now.image)) (map (seen source.now.image tables.CustomAttribute) rows.now)) }
{
    let mut attributes = Vec::new(alloc);
    let mut rest = rows;
    'each: while let Some((row, after)) = rest.split_first() {
        let attribute = attribute_of(source, *row)?;
        attributes.push(attribute)?;
        rest = after;
    }
    Ok(attributes)
}

/// The signature of an attribute's constructor.
pub fn signature_blob<'a>(source: &Source<'a>, maker: Maker) -> Result<&'a [u8], Stop<ImageFault>>
    ensures { Gives (λ x. x.now) result (cells_as.bytes_in (maker_row source.now.image maker) (maker_column maker)) }
{
    match maker {
        Maker::Reference(n) => source.image.bytes(Table::MemberRef, n, 2),
        Maker::Method(n) => source.image.bytes(Table::MethodDef, n, 4),
        Maker::Nothing => Ok(&[]),
    }
}

/// Where that signature's cell stands.
pub fn signature_offset(source: &Source<'_>, maker: Maker) -> u64
    ensures { result ≡ maker_offset source.now.image maker }
{
    match maker {
        Maker::Reference(n) => source.image.offset(Table::MemberRef, n, 2),
        Maker::Method(n) => source.image.offset(Table::MethodDef, n, 4),
        Maker::Nothing => 0,
    }
}
