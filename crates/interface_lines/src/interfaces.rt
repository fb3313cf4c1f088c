//! The rows of interfaces.

ghost use Rattle.std.specs.Prelude.{◌≡◌, ◌∷◌, ◌++◌, [], ℕ, List, Option, OnOk, map};
ghost use Rattle.std.specs.Option.{option_map_or};
ghost use Rattle.kind_rows.specs.Said.{said};
ghost use Rattle.part_rows.specs.Grown.{with_lines};
ghost use Rattle.winmd_sets.specs.Declared.{body_lines, id_of_type, interface_line, lines_of, owner_of_type, version_of_type};
ghost use Rattle.winmd_sets.specs.Members.{map_lines, members_lines};
ghost use Rattle.wr_base.specs.Trees as trees;
ghost use Rattle.wr_base.specs.Trees.{member_tree, tree_of};

use crate::attributes::{put_id, put_owner};
use class_rows::put_interfaces;
use kind_rows::{Out, Referred, put_baseless, put_version};
use member_rows::{put_maps, put_members};
use ranked::Memory;
use wr_base::{FullName, Member, TypeUse};

/// The flags of an interface: abstract, an interface, of the Windows Runtime; public where no class has it alone (ECMA-335 II.23.1.15).
fn flags_of(owner: &Option<FullName>) -> u32
    ensures { result ≡ option_map_or (λ (owner : List ℕ). 0x40A0) owner.now 0x40A1 }
{
    match owner {
        None => 0x40A1,
        Some(_) => 0x40A0,
    }
}

fn put_owner_if<N: Referred>(
    out: &mut Out,
    names: &N,
    owner: &Option<FullName>,
) -> Result<(), Memory>
    ensures { OnOk result (said out.new ≡ with_lines (N.names names.now) (owner_of_type owner.now) (said out.old)) }
{
    match owner {
        None => Ok(()),
        Some(owner) => put_owner(out, names, owner),
    }
}

/// The attributes of an interface.
fn put_attributes<N: Referred>(
    out: &mut Out,
    names: &N,
    version: u32,
    id: u128,
    owner: &Option<FullName>,
) -> Result<(), Memory>
    ensures { OnOk result (said out.new ≡ with_lines (N.names names.now) (id_of_type id ∷ version_of_type version ∷ owner_of_type owner.now) (said out.old)) }
{
    put_id(out, names, id)?;
    put_version(out, names, version)?;
    put_owner_if(out, names, owner)
}

/// What an interface requires, and its members.
fn put_parts<N: Referred>(
    out: &mut Out,
    names: &N,
    requires_: &[TypeUse],
    members: &[Member],
) -> Result<(), Memory>
    ensures { OnOk result (said out.new ≡ with_lines (N.names names.now) (map interface_line (map tree_of requires_.now)
        ++ (map_lines (map member_tree members.now) ++ members_lines [] (map member_tree members.now))) (said out.old)) }
{
    put_interfaces(out, names, requires_)?;
    put_maps(&mut out.writer, members)?;
    put_members(out, names, members)
}

/// What stands behind an interface's own row.
fn put_interface_body<N: Referred>(
    out: &mut Out,
    names: &N,
    version: u32,
    id: u128,
    owner: &Option<FullName>,
    requires_: &[TypeUse],
    members: &[Member],
) -> Result<(), Memory>
    ensures { (name : List ℕ) → OnOk result (said out.new ≡ with_lines (N.names names.now) (body_lines (trees.interface name version id owner.now (map tree_of requires_.now) (map member_tree members.now))) (said out.old)) }
{
    put_attributes(out, names, version, id, owner)?;
    put_parts(out, names, requires_, members)
}

/// An interface, whose required ones stand in this order (ECMA-335 II.22.37, II.22.23).
pub fn put_interface<N: Referred>(
    out: &mut Out,
    names: &N,
    name: &FullName,
    version: u32,
    id: u128,
    owner: &Option<FullName>,
    requires_: &[TypeUse],
    members: &[Member],
) -> Result<(), Memory>
    ensures { OnOk result (said out.new ≡ with_lines (N.names names.now) (lines_of (trees.interface name.now version id owner.now (map tree_of requires_.now) (map member_tree members.now))) (said out.old)) }
{
    put_baseless(out, names, flags_of(owner), name)?;
    put_interface_body(out, names, version, id, owner, requires_, members)
}
