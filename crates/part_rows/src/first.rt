//! The rows that every image begins with.

ghost use Rattle.std.specs.Prelude.{◌≡◌, ◌∷◌, [], OnOk, take, drop};
ghost use Rattle.winmd_sets.specs.Declared.{first_lines};
ghost use Rattle.part_rows.specs.Nothing.{nothing};
ghost use Rattle.row_writer.specs.Seen.{seen};
ghost use Rattle.part_rows.specs.Grown.{with_lines};

use md_schema::Table;
use ranked::Memory;
use row_writer::{Cell, Writer};

fn put_module(writer: &mut Writer) -> Result<(), Memory>
    ensures { OnOk result (seen writer.new ≡ with_lines nothing (take 1 first_lines) (seen writer.old)) }
{
    let cells = [
        Cell::Number(0),
        Cell::Words(b"types.winmd"),
        Cell::Guid(1),
        Cell::Guid(0),
        Cell::Guid(0),
    ];
    writer.line(Table::Module, &cells)
}

fn put_assembly(writer: &mut Writer) -> Result<(), Memory>
    ensures { OnOk result (seen writer.new ≡ with_lines nothing (take 1 (drop 1 first_lines)) (seen writer.old)) }
{
    let cells = [
        Cell::Number(0x8004),
        Cell::Number(255),
        Cell::Number(255),
        Cell::Number(255),
        Cell::Number(255),
        Cell::Number(0x200),
        Cell::Bytes(b""),
        Cell::Words(b"types"),
        Cell::Words(b""),
    ];
    writer.line(Table::Assembly, &cells)
}

fn put_core(writer: &mut Writer) -> Result<(), Memory>
    ensures { OnOk result (seen writer.new ≡ with_lines nothing (take 1 (drop 2 first_lines)) (seen writer.old)) }
{
    let cells = [
        Cell::Number(255),
        Cell::Number(255),
        Cell::Number(255),
        Cell::Number(255),
        Cell::Number(0),
        Cell::Bytes(&[0xB7, 0x7A, 0x5C, 0x56, 0x19, 0x34, 0xE0, 0x89]),
        Cell::Words(b"mscorlib"),
        Cell::Words(b""),
        Cell::Bytes(b""),
    ];
    writer.line(Table::AssemblyRef, &cells)
}

fn put_foundation(writer: &mut Writer) -> Result<(), Memory>
    ensures { OnOk result (seen writer.new ≡ with_lines nothing (take 1 (drop 3 first_lines)) (seen writer.old)) }
{
    let cells = [
        Cell::Number(255),
        Cell::Number(255),
        Cell::Number(255),
        Cell::Number(255),
        Cell::Number(0x200),
        Cell::Bytes(b""),
        Cell::Words(b"Windows.Foundation.FoundationContract"),
        Cell::Words(b""),
        Cell::Bytes(b""),
    ];
    writer.line(Table::AssemblyRef, &cells)
}

fn put_module_type(writer: &mut Writer) -> Result<(), Memory>
    ensures { OnOk result (seen writer.new ≡ with_lines nothing (drop 4 first_lines) (seen writer.old)) }
{
    let cells = [
        Cell::Number(0),
        Cell::Words(b"<Module>"),
        Cell::Words(b""),
        Cell::To(Table::TypeDef, 0),
        Cell::Next(Table::Field),
        Cell::Next(Table::MethodDef),
    ];
    writer.line(Table::TypeDef, &cells)
}

/// The module, its assembly, the assemblies that are referred to, and the type `<Module>`.
pub fn put_first(writer: &mut Writer) -> Result<(), Memory>
    ensures { OnOk result (seen writer.new ≡ with_lines nothing first_lines (seen writer.old)) }
{
    put_module(writer)?;
    put_assembly(writer)?;
    put_references(writer)?;
    put_module_type(writer)
}

fn put_references(writer: &mut Writer) -> Result<(), Memory>
    ensures { OnOk result (seen writer.new ≡ with_lines nothing (take 2 (drop 2 first_lines)) (seen writer.old)) }
{
    put_core(writer)?;
    put_foundation(writer)
}
