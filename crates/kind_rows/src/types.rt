//! The row of a type itself.

ghost use Rattle.std.specs.Prelude.{◌≡◌, ◌++◌, OnOk, codes};
ghost use Rattle.kind_rows.specs.Said.{said};
ghost use Rattle.md_schema.specs.declared.table.Table.TheVariants as tables;
ghost use Rattle.part_rows.specs.Grown.{with_line};
ghost use Rattle.winmd_lines.specs.Lines.{To, Type_};
ghost use Rattle.winmd_sets.specs.Declared.{typed};
ghost use Rattle.wr_base.specs.Trees.{reference};

use crate::out::Out;
use crate::referred::Referred;
use md_schema::Table;
use part_rows::{Target, put_type_row};
use ranked::Memory;
use wr_base::FullName;

/// A type that extends the type of this full name.
pub fn put_type<N: Referred>(
    out: &mut Out,
    names: &N,
    flags: u32,
    full: &FullName,
    base: &str,
) -> Result<(), Memory>
    ensures { OnOk result (said out.new ≡ with_line (N.names names.now) (typed flags full.now (Type_ (reference base.now))) (said out.old)) }
{
    put_type_row(&mut out.writer, flags, full, names.named(base))
}

/// A type that extends none.
pub fn put_baseless<N: Referred>(
    out: &mut Out,
    names: &N,
    flags: u32,
    full: &FullName,
) -> Result<(), Memory>
    ensures { OnOk result (said out.new ≡ with_line (N.names names.now) (typed flags full.now (To tables.TypeDef 0)) (said out.old)) }
{
    let none = Target {
        table: Table::TypeDef,
        row: 0,
    };
    put_type_row(&mut out.writer, flags, full, none)
}
