//! What rows of TypeDef state, one after the other.

ghost use Rattle.std.specs.Prelude.{◌≡◌, ◌++◌, ◌∷◌, [], OnOk, map, option_map};
ghost use Rattle.md_schema.specs.declared.table.Table.TheVariants as tables;
ghost use Rattle.winmd_cells.specs.Given.{Gives};
ghost use Rattle.winmd_cells.specs.Seen.{seen, tables_in};
ghost use Rattle.winmd_read.specs.InTurn.{stated_by};
ghost use Rattle.winmd_rows.specs.Faults.{somes};
ghost use Rattle.winmd_set.specs.Stated.{stated_seen};

use md_schema::ImageFault;
use ranked::{Memory, Stop};
use std::alloc::Global;
use winmd_kinds::type_of;
use winmd_set::Stated;
use winmd_source::Source;

fn add_if(list: &mut Vec<Stated>, stated: Option<Stated>) -> Result<(), Memory>
    ensures { OnOk result (map stated_seen list.new.items ≡ map stated_seen list.old.items ++ somes (option_map stated_seen stated ∷ [])) }
{
    match stated {
        Some(stated) => {
            list.push(stated)?;
            Ok(())
        }
        None => Ok(()),
    }
}

/// What rows of TypeDef state; those that state nothing are passed over.
pub(crate) fn all_stated(
    alloc: Global,
    source: &Source<'_>,
    rows: &[u32],
) -> Result<Vec<Stated>, Stop<ImageFault>>
    ensures { Gives (λ x. map stated_seen x.items) result (stated_by (tables_in source.now.image) (map (seen source.now.image tables.TypeDef) rows.now)) }
{
    let mut list = Vec::new(alloc);
    let mut rest = rows;
    'each: while let Some((row, after)) = rest.split_first() {
        let stated = type_of(alloc, source, *row)?;
        add_if(&mut list, stated)?;
        rest = after;
    }
    Ok(list)
}
