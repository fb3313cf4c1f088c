//! The members of an interface.

ghost use Rattle.std.specs.Prelude.{◌≡◌, map};
ghost use Rattle.winmd_cells.specs.Given.{Gives};
ghost use Rattle.winmd_cells.specs.Seen.{tables_in};
ghost use Rattle.winmd_sets.specs.Interfaces as interfaces_as;
ghost use Rattle.wr_base.specs.Trees.{member_tree};

use crate::items::items_of;
use crate::members::members_of;
use crate::roles::roles_of;
use md_schema::{ImageFault, Table};
use ranked::Stop;
use std::alloc::Global;
use winmd_source::Source;
use wr_base::Member;

/// The members of the type in a row, in the order of its methods.
pub fn members_in(
    alloc: Global,
    source: &Source<'_>,
    n: u32,
) -> Result<Vec<Member>, Stop<ImageFault>>
    ensures { Gives (λ x. map member_tree x.items) result (interfaces_as.members_in (tables_in source.now.image) n) }
{
    let methods = source
        .image
        .list_of(Table::TypeDef, 5, Table::MethodDef, n)?;
    let roles = roles_of(alloc, source, methods)?;
    let items = items_of(alloc, source, roles.as_slice())?;
    members_of(alloc, source, items.as_slice())
}
