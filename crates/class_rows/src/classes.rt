//! Classes.

ghost use Rattle.std.specs.Prelude.{◌≡◌, ◌∷◌, ◌++◌, [], OnOk, map};
ghost use Rattle.kind_rows.specs.Makers.{maker_of};
ghost use Rattle.kind_rows.specs.Said.{said};
ghost use Rattle.md_schema.specs.declared.table.Table.TheVariants as tables;
ghost use Rattle.part_rows.specs.Grown.{with_lines};
ghost use Rattle.winmd_lines.specs.Makers as makers;
ghost use Rattle.winmd_sets.specs.Declared.{named_attribute};
ghost use Rattle.winmd_sets.specs.Members.{attribute, when};
ghost use Rattle.winmd_sets.specs.Values.{number_argument};

use kind_rows::{Maker, Out, Referred, put_named, put_on};
use md_schema::Table;
use ranked::Memory;
use sig_blobs::Argument;
use wr_base::FullName;

fn put_all_named<N: Referred>(
    out: &mut Out,
    names: &N,
    maker: Maker,
    version: u32,
    list: &[FullName],
) -> Result<(), Memory>
    ensures { OnOk result (said out.new ≡ with_lines (N.names names.now) (map (named_attribute (maker_of maker) version) list.now) (said out.old)) }
{
    for name in list {
        put_named(out, names, maker, version, name)?;
    }
    Ok(())
}

fn put_direct<N: Referred>(
    out: &mut Out,
    names: &N,
    version: u32,
    direct: bool,
) -> Result<(), Memory>
    ensures { OnOk result (said out.new ≡ with_lines (N.names names.now) (when direct (attribute tables.TypeDef makers.Activatable (number_argument version) ∷ [])) (said out.old)) }
{
    if !direct {
        return Ok(());
    }
    let arguments = [Argument::Number(version)];
    put_on(out, names, Table::TypeDef, Maker::Activatable, &arguments)
}

/// How the last type, a class, is made, and its statics.
pub fn put_made<N: Referred>(
    out: &mut Out,
    names: &N,
    version: u32,
    direct: bool,
    factories: &[FullName],
    statics: &[FullName],
) -> Result<(), Memory>
    ensures { OnOk result (said out.new ≡ with_lines (N.names names.now) (when direct (attribute tables.TypeDef makers.Activatable (number_argument version) ∷ [])
        ++ (map (named_attribute makers.Factory version) factories.now ++ map (named_attribute makers.Static version) statics.now)) (said out.old)) }
{
    put_direct(out, names, version, direct)?;
    put_all_named(out, names, Maker::Factory, version, factories)?;
    put_all_named(out, names, Maker::Static, version, statics)
}
