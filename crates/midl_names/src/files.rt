//! The declarations of files, whose trees are let go one after the other.

ghost use Rattle.std.specs.Prelude.{◌≡◌, ◌++◌, IfOk, OnOk, map};
ghost use Rattle.std.specs.HashMap.{get_by_text};
ghost use Rattle.midl_names.specs.Declares.{placed_of};
ghost use Rattle.midl_names.specs.Items.{items_of_source, items_of};
ghost use Rattle.midl_names.specs.Views.{source_of, sources_of};
ghost use Rattle.placed_items.specs.Named.{AreNamed, ArePathed};

use crate::index::Index;
use crate::items::items_of;
use crate::written::placed;
use midl_tree::File;
use placed_items::{Placed, PlacedItem};
use std::alloc::Global;
use std::slice::from_ref;
use wr_base::{Listed, Memory};

fn placed_by(alloc: Global, index: &Index, file: &File) -> Result<Placed, Memory>
    ensures value { IfOk result (λ ps. ps ≡ map (placed_of (get_by_text index.now.sorts)) (items_of_source (source_of file.now))) }
    ensures named { IfOk result AreNamed }
    ensures pathed { IfOk result ArePathed }
{
    let items = items_of(alloc, from_ref(file))?;
    placed(alloc, index, &items)
}

fn push_all(into: &mut Vec<PlacedItem>, more: Placed) -> Result<(), Memory>
    ensures { OnOk result (into.new.items ≡ into.old.items ++ more) }
{
    let mut more = more.into_vec();
    into.append(&mut more)?;
    Ok(())
}

// What a file declares, behind what is there.
fn push_file(
    into: &mut Vec<PlacedItem>,
    alloc: Global,
    index: &Index,
    file: File,
) -> Result<(), Memory>
    ensures value { OnOk result (into.new.items ≡ into.old.items ++ map (placed_of (get_by_text index.now.sorts)) (items_of_source (source_of file))) }
    ensures named { OnOk result (AreNamed into.old.items → AreNamed into.new.items) }
    ensures pathed { OnOk result (ArePathed into.old.items → ArePathed into.new.items) }
{
    let more = placed_by(alloc, index, &file)?;
    drop(file);
    push_all(into, more)
}

/// What the files declare, with its uses resolved.
#[tactic(auto, using(crate::proofs::FileTurns::placed_more))]
pub(crate) fn placed_by_all(
    alloc: Global,
    index: &Index,
    files: Vec<File>,
) -> Result<Placed, Memory>
    ensures value { IfOk result (λ ps. ps ≡ map (placed_of (get_by_text index.now.sorts)) (items_of (sources_of files.items))) }
    ensures named { IfOk result AreNamed }
    ensures pathed { IfOk result ArePathed }
{
    let mut placed = Vec::new(alloc);
    for file in files {
        push_file(&mut placed, alloc, index, file)?;
    }
    Ok(Listed::from_vec(placed))
}
