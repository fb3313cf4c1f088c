//! Interfaces.

ghost use Rattle.std.specs.Prelude.{◌≡◌, map};
ghost use Rattle.winmd_attributes.specs.Seen.{attribute_seen};
ghost use Rattle.winmd_cells.specs.Given.{Gives};
ghost use Rattle.winmd_cells.specs.Seen.{tables_in};
ghost use Rattle.winmd_classes.specs.Parts.{interface_with, parts_in};
ghost use Rattle.winmd_set.specs.Stated.{set_tree};
ghost use Rattle.winmd_sets.specs.Interfaces as interfaces_as;
ghost use Rattle.wr_base.specs.Trees.{member_tree, tree_of};

use crate::implemented::{interfaces_of, types_of};
use md_schema::ImageFault;
use ranked::Stop;
use sqlite_items::Items;
use std::alloc::Global;
use winmd_attributes::{Attribute, exclusive_to, id_of, version_of};
use winmd_members::members_in;
use winmd_source::Source;
use wr_base::{Declaration, FullName, Listed, Member, TypeUse};

/// What an interface requires, and its members.
#[derive(Drop)]
pub struct Parts {
    pub requires_: Vec<TypeUse>,
    pub members: Vec<Member>,
}

fn parts_in(alloc: Global, source: &Source<'_>, n: u32) -> Result<Parts, Stop<ImageFault>>
    ensures { Gives (λ x. (map tree_of x.requires_.items, map member_tree x.members.items)) result (parts_in (tables_in source.now.image) n) }
{
    let interfaces = interfaces_of(alloc, source, n)?;
    let requires_ = types_of(alloc, interfaces)?;
    let members = members_in(alloc, source, n)?;
    Ok(Parts { requires_, members })
}

/// The interface of these parts.
fn interface_with(
    name: FullName,
    version: u32,
    id: u128,
    owner: Option<FullName>,
    parts: Parts,
) -> Declaration
    ensures { set_tree result ≡ interface_with name version id owner (map tree_of parts.requires_.items, map member_tree parts.members.items) }
{
    let Parts { requires_, members } = parts;
    Declaration::Interface {
        name,
        version,
        id,
        owner,
        requires_: Items::from_vec(requires_),
        members: Listed::from_vec(members),
    }
}

#[tactic(auto, using(crate::proofs::PartLaws::interface_by_parts))]
fn interface_from(
    alloc: Global,
    source: &Source<'_>,
    n: u32,
    name: FullName,
    version: u32,
    id: u128,
    owner: Option<FullName>,
) -> Result<Declaration, Stop<ImageFault>>
    ensures { Gives set_tree result (interfaces_as.interface_from (tables_in source.now.image) n name version id owner) }
{
    let parts = parts_in(alloc, source, n)?;
    Ok(interface_with(name, version, id, owner, parts))
}

/// The interface of this name, in a row of TypeDef.
pub fn interface_of<'a>(
    alloc: Global,
    source: &Source<'a>,
    n: u32,
    name: FullName,
    attributes: &[Attribute<'a>],
) -> Result<Declaration, Stop<ImageFault>>
    ensures { Gives set_tree result (interfaces_as.interface_of (tables_in source.now.image) n name (map (attribute_seen source.now.image) attributes.now)) }
{
    let version = version_of(alloc, source, n, attributes)?;
    let id = id_of(alloc, source, n, attributes)?;
    let owner = exclusive_to(alloc, source, n, attributes)?;
    interface_from(alloc, source, n, name, version, id, owner)
}
