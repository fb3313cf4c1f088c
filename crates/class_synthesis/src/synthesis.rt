//! The full types of a set of declarations, or the first clash.

ghost use Rattle.std.specs.Prelude.{◌≡◌, Some, IfOk, IfErr};
ghost use Rattle.ranked.specs.Entries.{Entry};
ghost use Rattle.ranked.specs.First.{IsFirst, Clear};
ghost use Rattle.placed_items.specs.Items.{HasPlaces, NamesApart};
ghost use Rattle.place_laws.specs.Shapes.{FitPlaces};
ghost use Rattle.class_synthesis.specs.Answers.{RefusedFirst, OnlyMemory, Refuses};
ghost use Rattle.class_synthesis.specs.Clashes.{IsClash};
ghost use Rattle.class_synthesis.specs.Full.{IsFull};

use crate::clashes::clash;
use crate::ordered::in_order;
use closed_lists::close_all;
use made_interfaces::raw;
use placed_items::Placed;
use std::alloc::{AllocError, Global};
use wr_base::{PlacedTypes, Refusal, Stop};

// A set of 2^32 declarations or more is answered as want of memory.
const MOST: usize = 4_294_967_295;

fn whole(alloc: Global, placed: Placed) -> Result<PlacedTypes, AllocError>
    requires apart { NamesApart placed }
    requires clear { Clear (IsClash placed) }
    ensures { IfOk result (λ full. IsFull placed full.types full.places) }
{
    let sites = raw(alloc, placed)?;
    let closed = close_all(alloc, sites)?;
    if closed.len() > MOST {
        return Err(AllocError);
    }
    in_order(alloc, closed)
}

/// All declarations of these items with the interfaces that are made of their classes, ids wherever none is written, and closed lists, in the order of full names; or the first made interface whose name is taken (C++/WinRT and MIDL 3.0 reference, Classes).
pub fn full(alloc: Global, placed: Placed) -> Result<PlacedTypes, Stop<Refusal>>
    // No two items have one full name.
    requires apart { NamesApart placed }
    // The answer is the full types of the items, each with its places.
    ensures full { IfOk result (λ full. IsFull placed full.types full.places) }
    // Each part has a place, where each has one in the items.
    ensures places { HasPlaces placed → IfOk result (λ full. FitPlaces full.types full.places) }
    // Where there is an answer nothing clashes.
    ensures clear { IfOk result (λ _. Clear (IsClash placed)) }
    // Where nothing clashes that is answered, unless memory runs out.
    ensures only { Clear (IsClash placed) → OnlyMemory result }
    // A refusal is the first clash.
    ensures refused { IfErr result (λ stop. RefusedFirst placed stop) }
    // The first clash is refused, unless memory runs out.
    ensures first { (e : Entry) → IsFirst (IsClash placed) (Some e) → Refuses e result }
{
    match clash(alloc, placed.as_slice())? {
        Some(refusal) => Err(Stop::Refused(refusal)),
        None => Ok(whole(alloc, placed)?),
    }
}
