//! Classes.

ghost use Rattle.std.specs.Prelude.{◌≡◌, map, option_map};
ghost use Rattle.winmd_attributes.specs.Seen.{attribute_seen};
ghost use Rattle.winmd_cells.specs.Given.{Gives};
ghost use Rattle.winmd_cells.specs.Seen.{tables_in};
ghost use Rattle.winmd_classes.specs.Ways.{class_with};
ghost use Rattle.winmd_lines.specs.Cells as cells_as;
ghost use Rattle.winmd_set.specs.Stated.{set_tree};
ghost use Rattle.winmd_sets.specs.Classes as classes_as;
ghost use Rattle.wr_base.specs.Trees.{tree_of};

use crate::defaults::{Has, has_in};
use crate::ways::{Ways, ways_in};
use md_schema::ImageFault;
use ranked::Stop;
use sqlite_items::Items;
use std::alloc::Global;
use winmd_attributes::{Attribute, version_of};
use winmd_cells::has_flag;
use winmd_source::Source;
use wr_base::{Declaration, FullName, Listed};

/// Whether flag 0x80 is set (ECMA-335 II.23.1.15).
fn is_fixed(flags: u32) -> bool
    ensures { result ≡ cells_as.has_flag flags 0x80 }
{
    has_flag(flags, 0x80)
}

/// The class that has these interfaces and is made in these ways.
fn class_with(name: FullName, version: u32, fixed: bool, has: Has, ways: Ways) -> Declaration
    ensures { set_tree result ≡ class_with name version fixed (option_map tree_of has.default, map tree_of has.types.items) (ways.direct, ways.factories.items, ways.statics.items) }
{
    let Has { default, types } = has;
    let Ways {
        direct,
        factories,
        statics,
    } = ways;
    Declaration::Class {
        name,
        version,
        fixed,
        default,
        has: Items::from_vec(types),
        direct,
        factories: Listed::from_vec(factories),
        statics: Listed::from_vec(statics),
    }
}

/// The class of this name and these flags, in a row of TypeDef.
#[tactic(auto, using(crate::proofs::PartLaws::class_by_parts))]
pub fn class_of<'a>(
    alloc: Global,
    source: &Source<'a>,
    n: u32,
    flags: u32,
    name: FullName,
    attributes: &[Attribute<'a>],
) -> Result<Declaration, Stop<ImageFault>>
    ensures { Gives set_tree result (classes_as.class_of (tables_in source.now.image) n name flags (map (attribute_seen source.now.image) attributes.now)) }
{
    let version = version_of(alloc, source, n, attributes)?;
    let has = has_in(alloc, source, n)?;
    let ways = ways_in(alloc, source, attributes)?;
    Ok(class_with(name, version, is_fixed(flags), has, ways))
}
