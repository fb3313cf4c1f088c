//! Rows of attributes, with the values of their arguments (ECMA-335 II.22.10, II.23.3).

ghost use Rattle.std.specs.Prelude.{◌≡◌, ◌∷◌, ◌++◌, [], IsTrue, OnOk, Some};
ghost use Rattle.kind_rows.specs.Makers.{maker_of};
ghost use Rattle.kind_rows.specs.Said.{said};
ghost use Rattle.md_schema.specs.declared.column.CodedIndex.TheVariants.{HasCustomAttribute};
ghost use Rattle.md_schema.specs.declared.column.Column.TheVariants.{Coded};
ghost use Rattle.part_rows.specs.Grown.{with_line, with_lines};
ghost use Rattle.row_writer.specs.Lines.{takes_rows};
ghost use Rattle.sig_blobs.specs.Attributes.{value_bytes};
ghost use Rattle.winmd_sets.specs.Declared.{version_of_type, id_of_type, owner_of_type, named_attribute};
ghost use Rattle.winmd_sets.specs.Members.{attribute};

use crate::makers::Maker;
use crate::out::Out;
use crate::referred::Referred;
use md_schema::Table;
use part_rows::put_attribute_row;
use ranked::Memory;
use sig_blobs::{Argument, put_attribute};
use wr_base::FullName;

fn put_value(blob: &mut Vec<u8>, arguments: &[Argument]) -> Result<(), Memory>
    ensures { OnOk result (blob.new.items ≡ value_bytes arguments.now) }
{
    blob.clear();
    put_attribute(blob, arguments)
}

/// An attribute of the last row of a table.
pub fn put_on<N: Referred>(
    out: &mut Out,
    names: &N,
    table: Table,
    maker: Maker,
    arguments: &[Argument],
) -> Result<(), Memory>
    requires { IsTrue (takes_rows table (Coded HasCustomAttribute)) }
    ensures { OnOk result (said out.new ≡ with_line (N.names names.now) (attribute table (maker_of maker) arguments.now) (said out.old)) }
{
    put_value(&mut out.blob, arguments)?;
    put_attribute_row(&mut out.writer, table, names.maker_row(maker), &out.blob)
}

/// The version of the last type.
pub fn put_version<N: Referred>(out: &mut Out, names: &N, version: u32) -> Result<(), Memory>
    ensures { OnOk result (said out.new ≡ with_line (N.names names.now) (version_of_type version) (said out.old)) }
{
    let arguments = [Argument::Number(version)];
    put_on(out, names, Table::TypeDef, Maker::Version, &arguments)
}

/// The id of the last type.
pub fn put_id<N: Referred>(out: &mut Out, names: &N, id: u128) -> Result<(), Memory>
    ensures { OnOk result (said out.new ≡ with_line (N.names names.now) (id_of_type id) (said out.old)) }
{
    let arguments = [Argument::Id(id)];
    put_on(out, names, Table::TypeDef, Maker::Guid, &arguments)
}

/// The class that alone has the last type.
pub fn put_owner<N: Referred>(out: &mut Out, names: &N, owner: &FullName) -> Result<(), Memory>
    ensures { OnOk result (said out.new ≡ with_lines (N.names names.now) (owner_of_type (Some owner.now)) (said out.old)) }
{
    let arguments = [Argument::TypeName(owner.clone()?)];
    put_on(out, names, Table::TypeDef, Maker::ExclusiveTo, &arguments)
}

/// An attribute of the last type with a type's name and the version.
pub fn put_named<N: Referred>(
    out: &mut Out,
    names: &N,
    maker: Maker,
    version: u32,
    name: &FullName,
) -> Result<(), Memory>
    ensures { OnOk result (said out.new ≡ with_line (N.names names.now) (named_attribute (maker_of maker) version name.now) (said out.old)) }
{
    let arguments = [Argument::TypeName(name.clone()?), Argument::Number(version)];
    put_on(out, names, Table::TypeDef, maker, &arguments)
}
