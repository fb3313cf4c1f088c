//! Interfaces and classes, with their interfaces put in order (ECMA-335 II.22.23).

ghost use Rattle.std.specs.Prelude.{◌≡◌, OnOk, map, option_map};
ghost use Rattle.kind_rows.specs.Said.{said};
ghost use Rattle.part_rows.specs.Grown.{with_lines};
ghost use Rattle.winmd_sets.specs.Declared.{lines_of};
ghost use Rattle.winmd_sets.specs.Rows.{arranged};
ghost use Rattle.wr_base.specs.Trees as trees;
ghost use Rattle.wr_base.specs.Trees.{member_tree, tree_of};

use class_lines::put_class;
use interface_lines::put_interface;
use interface_order::in_order;
use kind_rows::{Out, Referred};
use ranked::Memory;
use wr_base::{FullName, Member, TypeUse};

/// An interface.
pub fn put_arranged_interface<N: Referred>(
    out: &mut Out,
    names: &N,
    name: &FullName,
    version: u32,
    id: u128,
    owner: &Option<FullName>,
    requires_: &[TypeUse],
    members: &[Member],
) -> Result<(), Memory>
    ensures { OnOk result (said out.new ≡ with_lines (N.names names.now) (lines_of (arranged (N.names names.now) (trees.interface name.now version id owner.now (map tree_of requires_.now) (map member_tree members.now)))) (said out.old)) }
{
    let ordered = in_order(names, requires_, out.alloc)?;
    put_interface(out, names, name, version, id, owner, &ordered, members)
}

/// A class.
pub fn put_arranged_class<N: Referred>(
    out: &mut Out,
    names: &N,
    name: &FullName,
    version: u32,
    fixed: bool,
    default: &Option<TypeUse>,
    has: &[TypeUse],
    direct: bool,
    factories: &[FullName],
    statics: &[FullName],
) -> Result<(), Memory>
    ensures { OnOk result (said out.new ≡ with_lines (N.names names.now) (lines_of (arranged (N.names names.now) (trees.class name.now version fixed (option_map tree_of default.now) (map tree_of has.now) direct factories.now statics.now))) (said out.old)) }
{
    let ordered = in_order(names, has, out.alloc)?;
    put_class(
        out, names, name, version, fixed, default, &ordered, direct, factories, statics,
    )
}
