//! The types that rows state.

ghost use Rattle.std.specs.Prelude.{map};
ghost use Rattle.md_schema.specs.declared.table.Table.TheVariants as tables;
ghost use Rattle.winmd_cells.specs.Given.{Gives};
ghost use Rattle.winmd_cells.specs.Seen.{tables_in};
ghost use Rattle.winmd_lines.specs.Cells as cells_as;
ghost use Rattle.winmd_read.specs.InTurn.{stated_by, types_in_turn};
ghost use Rattle.winmd_set.specs.Stated.{stated_seen};
ghost use Rattle.winmd_sets.specs.Types as types_as;
ghost use Rattle.wr_base.specs.Trees.{decl_tree};

use crate::rows::all_stated;
use md_schema::{ImageFault, Table};
use ranked::Stop;
use std::alloc::Global;
use winmd_cells::Image;
use winmd_index::{indexes_of, source_of};
use winmd_lists::{all_begin, none_generic};
use winmd_set::{Stated, types_from};
use winmd_source::Source;
use wr_base::Types;

#[tactic(auto, using(crate::proofs::TurnLaws::all_seen))]
fn stated_types(alloc: Global, source: &Source<'_>) -> Result<Vec<Stated>, Stop<ImageFault>>
    ensures { Gives (λ x. map stated_seen x.items) result (stated_by (tables_in source.now.image) (cells_as.all_rows (tables_in source.now.image) tables.TypeDef)) }
{
    all_stated(alloc, source, source.image.all_rows(Table::TypeDef))
}

fn types_in_turn(alloc: Global, source: &Source<'_>) -> Result<Types, Stop<ImageFault>>
    ensures { Gives (map decl_tree) result (types_in_turn (tables_in source.now.image)) }
{
    all_begin(&source.image)?;
    none_generic(&source.image)?;
    let list = stated_types(alloc, source)?;
    types_from(alloc, &source.image, list)
}

#[tactic(auto, using(crate::proofs::TurnLaws::all_in_turn))]
fn source_types(alloc: Global, source: &Source<'_>) -> Result<Types, Stop<ImageFault>>
    ensures { Gives (map decl_tree) result (types_as.types_of (tables_in source.now.image)) }
{
    types_in_turn(alloc, source)
}

/// The set of types that an image's rows state, in the order of full names.
pub(crate) fn image_types(alloc: Global, image: Image<'_>) -> Result<Types, Stop<ImageFault>>
    ensures { Gives (map decl_tree) result (types_as.types_of (tables_in image.entry)) }
{
    let indexes = indexes_of(alloc, &image)?;
    source_types(alloc, &source_of(image, &indexes))
}
