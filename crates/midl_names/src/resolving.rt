//! The declarations of a set of files, or what is broken first.

ghost use Rattle.std.specs.Prelude.{◌≡◌, ℕ, List, Some, None, IfOk, IfErr};
ghost use Rattle.std.specs.HashMap.{get_by_text};
ghost use Rattle.ranked.specs.Entries.{Entry};
ghost use Rattle.ranked.specs.First.{IsFirst, Clear};
ghost use Rattle.midl_names.specs.Answers.{BrokenFirst, RefusedFirst, Resolves, Refuses};
ghost use Rattle.midl_names.specs.Declares.{Declares};
ghost use Rattle.midl_names.specs.Items.{items_of};
ghost use Rattle.midl_names.specs.Lookup.{declared_sort};
ghost use Rattle.midl_names.specs.Names.{Broken, Names};
ghost use Rattle.midl_names.specs.Views.{sources_of};
ghost use Rattle.placed_items.specs.Applied.{AreApplied};
ghost use Rattle.placed_items.specs.Items.{HasPlaces, NamesApart};
ghost use Rattle.placed_items.specs.Named.{AreNamed, ArePathed};

use crate::faults::faults;
use crate::files::placed_by_all;
use crate::index::{Index, index_of};
use crate::items::items_of;
use midl_tree::File;
use placed_items::Placed;
use std::alloc::Global;
use wr_base::{Refusal, Stop};

// The index of what the files declare, or the first entry that is broken in it.
fn index_or_fault(alloc: Global, files: &[File]) -> Result<Index, Stop<Refusal>>
    ensures clear { IfOk result (λ _. IsFirst (Broken (items_of (sources_of files.now))) None) }
    ensures sorts { IfOk result (λ index. (name : List ℕ) → get_by_text index.sorts name ≡ declared_sort (items_of (sources_of files.now)) name) }
    ensures refused { IfErr result (BrokenFirst (items_of (sources_of files.now))) }
{
    let items = items_of(alloc, files)?;
    let index = index_of(alloc, &items)?;
    match faults(alloc, &index, &items)? {
        Some(refusal) => Err(Stop::Refused(refusal)),
        None => Ok(index),
    }
}

// What the files declare, or the first entry that is broken in it.
fn answer_of(alloc: Global, files: Vec<File>) -> Result<Placed, Stop<Refusal>>
    ensures clear { IfOk result (λ _. IsFirst (Broken (items_of (sources_of files.items))) None) }
    ensures value { IfOk result (λ placed. placed ≡ Declares (sources_of files.items)) }
    ensures named { IfOk result AreNamed }
    ensures pathed { IfOk result ArePathed }
    ensures refused { IfErr result (BrokenFirst (items_of (sources_of files.items))) }
{
    let index = index_or_fault(alloc, &files)?;
    Ok(placed_by_all(alloc, &index, files)?)
}

/// What the files declare, with each use resolved, or the first entry that is broken in the phase of names. The tree of each file is let go as soon as its declarations are there.
pub fn resolve(alloc: Global, files: Vec<File>) -> Result<Placed, Stop<Refusal>>
    // Where there is an answer nothing is broken.
    ensures clear { IfOk result (λ _. Clear (Names (sources_of files.items))) }
    // The answer is what the files declare.
    ensures declares { IfOk result (λ placed. placed ≡ Declares (sources_of files.items)) }
    // One full name stands at one item alone.
    ensures apart { IfOk result NamesApart }
    // Each part of an item has a place.
    ensures places { IfOk result HasPlaces }
    // Each part has a name, and each parameter: an identifier of at most 255 bytes.
    ensures named { IfOk result AreNamed }
    // Full names are identifiers joined by dots, those of items and those in their uses.
    ensures pathed { IfOk result ArePathed }
    // Each instance of a template has an argument.
    ensures applied { IfOk result AreApplied }
    // Where nothing is broken that is answered, unless memory runs out.
    ensures only { Clear (Names (sources_of files.items)) → Resolves (Declares (sources_of files.items)) result }
    // A refusal is the first entry that is broken.
    ensures refused { IfErr result (λ stop. RefusedFirst (sources_of files.items) stop) }
    // The first entry that is broken is refused, unless memory runs out.
    ensures first { (e : Entry) → IsFirst (Names (sources_of files.items)) (Some e) → Refuses e result }
{
    answer_of(alloc, files)
}
