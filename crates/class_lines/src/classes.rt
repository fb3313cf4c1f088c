//! The rows of classes.

ghost use Rattle.std.specs.Prelude.{◌≡◌, ℕ, Bool, List, OnOk, map, option_map, if◌then◌else◌};
ghost use Rattle.kind_rows.specs.Said.{said};
ghost use Rattle.part_rows.specs.Grown.{with_lines};
ghost use Rattle.winmd_sets.specs.Declared.{body_lines, lines_of};
ghost use Rattle.wr_base.specs.Trees as trees;
ghost use Rattle.wr_base.specs.Trees.{tree_of};

use class_rows::{put_class_interfaces, put_made};
use kind_rows::{Out, Referred, put_type, put_version};
use ranked::Memory;
use wr_base::{FullName, TypeUse};

/// The flags of a class: public, a class, of the Windows Runtime; sealed where it is fixed (ECMA-335 II.23.1.15).
fn flags_of(fixed: bool) -> u32
    ensures { result ≡ (if fixed then 0x4181 else 0x4101) }
{
    if fixed { 0x4181 } else { 0x4101 }
}

/// What stands behind a class's own row.
fn put_class_body<N: Referred>(
    out: &mut Out,
    names: &N,
    version: u32,
    default: &Option<TypeUse>,
    has: &[TypeUse],
    direct: bool,
    factories: &[FullName],
    statics: &[FullName],
) -> Result<(), Memory>
    ensures { (name : List ℕ) (fixed : Bool) → OnOk result (said out.new ≡ with_lines (N.names names.now) (body_lines (trees.class name version fixed (option_map tree_of default.now) (map tree_of has.now) direct factories.now statics.now)) (said out.old)) }
{
    put_version(out, names, version)?;
    put_class_interfaces(out, names, default, has)?;
    put_made(out, names, version, direct, factories, statics)
}

/// A class, whose interfaces stand in this order (ECMA-335 II.22.37, II.22.23).
pub fn put_class<N: Referred>(
    out: &mut Out,
    names: &N,
    name: &FullName,
    version: u32,
    fixed: bool,
    default: &Option<TypeUse>,
    has: &[TypeUse],
    direct: bool,
    factories: &[FullName],
    statics: &[FullName],
) -> Result<(), Memory>
    ensures { OnOk result (said out.new ≡ with_lines (N.names names.now) (lines_of (trees.class name.now version fixed (option_map tree_of default.now) (map tree_of has.now) direct factories.now statics.now)) (said out.old)) }
{
    put_type(out, names, flags_of(fixed), name, "System.Object")?;
    put_class_body(
        out, names, version, default, has, direct, factories, statics,
    )
}
