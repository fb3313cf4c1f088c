//! The interfaces of a type.

ghost use Rattle.std.specs.Prelude.{◌≡◌, ◌∷◌, [], OnOk, map, option_map};
ghost use Rattle.std.specs.List.{flat_map};
ghost use Rattle.kind_rows.specs.Said.{said};
ghost use Rattle.md_schema.specs.declared.table.Table.TheVariants as tables;
ghost use Rattle.part_rows.specs.Grown.{with_line, with_lines};
ghost use Rattle.winmd_lines.specs.Makers as makers;
ghost use Rattle.winmd_sets.specs.Declared as declared;
ghost use Rattle.winmd_sets.specs.Declared.{class_interface, interface_line};
ghost use Rattle.winmd_sets.specs.Members.{attribute, when};
ghost use Rattle.wr_base.specs.Trees.{tree_of};

use kind_rows::{Maker, Out, Referred, put_on};
use md_schema::Table;
use part_rows::put_interface_row;
use ranked::Memory;
use wr_base::{Same, TypeUse};

fn put_interface<N: Referred>(out: &mut Out, names: &N, ty: &TypeUse) -> Result<(), Memory>
    ensures { OnOk result (said out.new ≡ with_line (N.names names.now) (interface_line (tree_of ty.now)) (said out.old)) }
{
    let target = names.led_to(ty)?;
    put_interface_row(&mut out.writer, target)
}

/// The interfaces of the last type, in this order.
pub fn put_interfaces<N: Referred>(out: &mut Out, names: &N, uses: &[TypeUse]) -> Result<(), Memory>
    ensures { OnOk result (said out.new ≡ with_lines (N.names names.now) (map interface_line (map tree_of uses.now)) (said out.old)) }
{
    for ty in uses {
        put_interface(out, names, ty)?;
    }
    Ok(())
}

fn is_default(default: &Option<TypeUse>, ty: &TypeUse) -> bool
    ensures { result ≡ declared.is_default (option_map tree_of default.now) (tree_of ty.now) }
{
    match default {
        None => false,
        Some(default) => default.same(ty),
    }
}

fn put_default<N: Referred>(out: &mut Out, names: &N, test: bool) -> Result<(), Memory>
    ensures { OnOk result (said out.new ≡ with_lines (N.names names.now) (when test (attribute tables.InterfaceImpl makers.Default [] ∷ [])) (said out.old)) }
{
    if !test {
        return Ok(());
    }
    put_on(out, names, Table::InterfaceImpl, Maker::Default, &[])
}

fn put_class_interface<N: Referred>(
    out: &mut Out,
    names: &N,
    default: &Option<TypeUse>,
    ty: &TypeUse,
) -> Result<(), Memory>
    ensures { OnOk result (said out.new ≡ with_lines (N.names names.now) (class_interface (option_map tree_of default.now) (tree_of ty.now)) (said out.old)) }
{
    put_interface(out, names, ty)?;
    put_default(out, names, is_default(default, ty))
}

/// The interfaces of the last type, a class, in this order, of which one may be its default.
pub fn put_class_interfaces<N: Referred>(
    out: &mut Out,
    names: &N,
    default: &Option<TypeUse>,
    uses: &[TypeUse],
) -> Result<(), Memory>
    ensures { OnOk result (said out.new ≡ with_lines (N.names names.now) (flat_map (class_interface (option_map tree_of default.now)) (map tree_of uses.now)) (said out.old)) }
{
    for ty in uses {
        put_class_interface(out, names, default, ty)?;
    }
    Ok(())
}
