//! The set of what rows state.

ghost use Rattle.std.specs.Prelude.{map};
ghost use Rattle.winmd_cells.specs.Given.{Gives};
ghost use Rattle.winmd_cells.specs.Seen.{tables_in};
ghost use Rattle.winmd_set.specs.Order.{set_in};
ghost use Rattle.winmd_set.specs.Stated.{stated_seen};
ghost use Rattle.wr_base.specs.Trees.{decl_tree};

use crate::order::put_in_order;
use crate::stated::Stated;
use crate::steps::check_all;
use md_schema::ImageFault;
use ranked::Stop;
use std::alloc::Global;
use winmd_cells::Image;
use wr_base::Types;

/// The set of the declarations that rows of TypeDef state, in the order of full names. Refused at the first row with which there are more than
/// 20,000 types or 500,000 parts (PastLimit), or whose full name a later one has (BadShape).
pub fn types_from(
    alloc: Global,
    image: &Image<'_>,
    list: Vec<Stated>,
) -> Result<Types, Stop<ImageFault>>
    ensures { Gives (map decl_tree) result (set_in (tables_in image.now) (map stated_seen list.items)) }
{
    check_all(alloc, image, list.as_slice())?;
    Ok(put_in_order(alloc, list)?)
}
