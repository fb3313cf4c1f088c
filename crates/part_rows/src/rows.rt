//! One row each, of the tables of a type's parts (ECMA-335 II.22).

ghost use Rattle.std.specs.Prelude.{◌≡◌, ◌∷◌, [], IsTrue, OnOk, codes};
ghost use Rattle.md_schema.specs.declared.column.CodedIndex.TheVariants.{HasCustomAttribute, MemberRefParent, TypeDefOrRef};
ghost use Rattle.md_schema.specs.declared.column.Column.TheVariants.{Coded};
ghost use Rattle.md_schema.specs.declared.table.Table.TheVariants as tables;
ghost use Rattle.row_writer.specs.Lines.{takes_rows};
ghost use Rattle.winmd_lines.specs.Lines.{line, Number, Words, Bytes, To, Last, Next};
ghost use Rattle.winmd_sets.specs.Declared.{typed};
ghost use Rattle.winmd_sets.specs.Members.{field_line, map_line};
ghost use Rattle.part_rows.specs.Nothing.{nothing};
ghost use Rattle.row_writer.specs.Seen.{seen};
ghost use Rattle.part_rows.specs.Grown.{with_line};

use crate::target::Target;
use md_schema::Table;
use ranked::Memory;
use row_writer::{Cell, Writer};
use wr_base::FullName;

/// A field with this signature.
pub fn put_field_row<'x>(
    writer: &mut Writer,
    flags: u32,
    name: &'x str,
    blob: &'x [u8],
) -> Result<(), Memory>
    ensures { OnOk result (seen writer.new ≡ with_line nothing (field_line flags name.now (Bytes blob.now)) (seen writer.old)) }
{
    let cells = [
        Cell::Number(flags),
        Cell::Words(name.as_bytes()),
        Cell::Bytes(blob),
    ];
    writer.line(Table::Field, &cells)
}

/// A constant of the last field.
pub fn put_constant_row(writer: &mut Writer, element: u32, value: &[u8]) -> Result<(), Memory>
    ensures { OnOk result (seen writer.new ≡ with_line nothing (line tables.Constant (Number element ∷ Number 0 ∷ Last tables.Field ∷ Bytes value.now ∷ [])) (seen writer.old)) }
{
    let cells = [
        Cell::Number(element),
        Cell::Number(0),
        Cell::Last(Table::Field),
        Cell::Bytes(value),
    ];
    writer.line(Table::Constant, &cells)
}

/// A method with this signature, whose parameters come next.
pub fn put_method_row<'x>(
    writer: &mut Writer,
    flags: u32,
    impl_flags: u32,
    name: &'x [u8],
    blob: &'x [u8],
) -> Result<(), Memory>
    ensures { OnOk result (seen writer.new ≡ with_line nothing (line tables.MethodDef
        (Number 0 ∷ Number impl_flags ∷ Number flags ∷ Words name.now ∷ Bytes blob.now ∷ Next tables.Param ∷ [])) (seen writer.old)) }
{
    let cells = [
        Cell::Number(0),
        Cell::Number(impl_flags),
        Cell::Number(flags),
        Cell::Words(name),
        Cell::Bytes(blob),
        Cell::Next(Table::Param),
    ];
    writer.line(Table::MethodDef, &cells)
}

/// A parameter of the last method, by its sequence number: flags 1 in, 2 out.
pub fn put_param_row(writer: &mut Writer, flags: u32, number: u32, name: &str) -> Result<(), Memory>
    ensures { OnOk result (seen writer.new ≡ with_line nothing (line tables.Param (Number flags ∷ Number number ∷ Words name.now ∷ [])) (seen writer.old)) }
{
    let cells = [
        Cell::Number(flags),
        Cell::Number(number),
        Cell::Words(name.as_bytes()),
    ];
    writer.line(Table::Param, &cells)
}

/// A property with this signature.
pub fn put_property_row<'x>(
    writer: &mut Writer,
    name: &'x str,
    blob: &'x [u8],
) -> Result<(), Memory>
    ensures { OnOk result (seen writer.new ≡ with_line nothing (line tables.Property (Number 0 ∷ Words name.now ∷ Bytes blob.now ∷ [])) (seen writer.old)) }
{
    let cells = [
        Cell::Number(0),
        Cell::Words(name.as_bytes()),
        Cell::Bytes(blob),
    ];
    writer.line(Table::Property, &cells)
}

/// What the last method is for the last property: 1 its setter, 2 its getter.
pub fn put_property_semantics(writer: &mut Writer, meaning: u32) -> Result<(), Memory>
    ensures { OnOk result (seen writer.new ≡ with_line nothing (line tables.MethodSemantics (Number meaning ∷ Last tables.MethodDef ∷ Last tables.Property ∷ [])) (seen writer.old)) }
{
    let cells = [
        Cell::Number(meaning),
        Cell::Last(Table::MethodDef),
        Cell::Last(Table::Property),
    ];
    writer.line(Table::MethodSemantics, &cells)
}

/// What the last method is for the last event: 8 its adder, 16 its remover.
pub fn put_event_semantics(writer: &mut Writer, meaning: u32) -> Result<(), Memory>
    ensures { OnOk result (seen writer.new ≡ with_line nothing (line tables.MethodSemantics (Number meaning ∷ Last tables.MethodDef ∷ Last tables.Event ∷ [])) (seen writer.old)) }
{
    let cells = [
        Cell::Number(meaning),
        Cell::Last(Table::MethodDef),
        Cell::Last(Table::Event),
    ];
    writer.line(Table::MethodSemantics, &cells)
}

/// Where the properties of the last type begin.
pub fn put_property_map(writer: &mut Writer) -> Result<(), Memory>
    ensures { OnOk result (seen writer.new ≡ with_line nothing (map_line tables.PropertyMap tables.Property) (seen writer.old)) }
{
    let cells = [Cell::Last(Table::TypeDef), Cell::Next(Table::Property)];
    writer.line(Table::PropertyMap, &cells)
}

/// Where the events of the last type begin.
pub fn put_event_map(writer: &mut Writer) -> Result<(), Memory>
    ensures { OnOk result (seen writer.new ≡ with_line nothing (map_line tables.EventMap tables.Event) (seen writer.old)) }
{
    let cells = [Cell::Last(Table::TypeDef), Cell::Next(Table::Event)];
    writer.line(Table::EventMap, &cells)
}

/// A type whose fields and methods come next, and the type that it extends: a row of TypeDef or TypeRef, 0 for none.
pub fn put_type_row(
    writer: &mut Writer,
    flags: u32,
    full: &FullName,
    base: Target,
) -> Result<(), Memory>
    requires { IsTrue (takes_rows base.table (Coded TypeDefOrRef)) }
    ensures { OnOk result (seen writer.new ≡ with_line nothing (typed flags full.now (To base.table base.row)) (seen writer.old)) }
{
    let (space, name) = full.parts();
    let cells = [
        Cell::Number(flags),
        Cell::Words(name.as_bytes()),
        Cell::Words(space.as_bytes()),
        Cell::To(base.table, base.row),
        Cell::Next(Table::Field),
        Cell::Next(Table::MethodDef),
    ];
    writer.line(Table::TypeDef, &cells)
}

/// An attribute of the last row of a table, by its constructor's row of MemberRef, with this value.
pub fn put_attribute_row(
    writer: &mut Writer,
    table: Table,
    maker: u32,
    blob: &[u8],
) -> Result<(), Memory>
    requires { IsTrue (takes_rows table (Coded HasCustomAttribute)) }
    ensures { OnOk result (seen writer.new ≡ with_line nothing (line tables.CustomAttribute (Last table ∷ To tables.MemberRef maker ∷ Bytes blob.now ∷ [])) (seen writer.old)) }
{
    let cells = [
        Cell::Last(table),
        Cell::To(Table::MemberRef, maker),
        Cell::Bytes(blob),
    ];
    writer.line(Table::CustomAttribute, &cells)
}

/// An interface of the last type.
pub fn put_interface_row(writer: &mut Writer, interface: Target) -> Result<(), Memory>
    requires { IsTrue (takes_rows interface.table (Coded TypeDefOrRef)) }
    ensures { OnOk result (seen writer.new ≡ with_line nothing (line tables.InterfaceImpl (Last tables.TypeDef ∷ To interface.table interface.row ∷ [])) (seen writer.old)) }
{
    let cells = [
        Cell::Last(Table::TypeDef),
        Cell::To(interface.table, interface.row),
    ];
    writer.line(Table::InterfaceImpl, &cells)
}

/// An event, and its type.
pub fn put_event_row(writer: &mut Writer, name: &str, handler: Target) -> Result<(), Memory>
    requires { IsTrue (takes_rows handler.table (Coded TypeDefOrRef)) }
    ensures { OnOk result (seen writer.new ≡ with_line nothing (line tables.Event (Number 0 ∷ Words name.now ∷ To handler.table handler.row ∷ [])) (seen writer.old)) }
{
    let cells = [
        Cell::Number(0),
        Cell::Words(name.as_bytes()),
        Cell::To(handler.table, handler.row),
    ];
    writer.line(Table::Event, &cells)
}

/// A constructor of the type in a row of TypeDef or TypeRef, with this signature.
pub fn put_constructor_row(writer: &mut Writer, owner: Target, blob: &[u8]) -> Result<(), Memory>
    requires { IsTrue (takes_rows owner.table (Coded MemberRefParent)) }
    ensures { OnOk result (seen writer.new ≡ with_line nothing (line tables.MemberRef (To owner.table owner.row ∷ Words (codes ".ctor") ∷ Bytes blob.now ∷ [])) (seen writer.old)) }
{
    let cells = [
        Cell::To(owner.table, owner.row),
        Cell::Words(b".ctor"),
        Cell::Bytes(blob),
    ];
    writer.line(Table::MemberRef, &cells)
}

/// A type that this signature spells.
pub fn put_spec_row(writer: &mut Writer, blob: &[u8]) -> Result<(), Memory>
    ensures { OnOk result (seen writer.new ≡ with_line nothing (line tables.TypeSpec (Bytes blob.now ∷ [])) (seen writer.old)) }
{
    let cells = [Cell::Bytes(blob)];
    writer.line(Table::TypeSpec, &cells)
}
