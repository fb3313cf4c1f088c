//! The check of a whole set.

ghost use Rattle.std.specs.Prelude.{IfErr, OnOk, Some};
ghost use Rattle.ranked.specs.Entries.{Entry};
ghost use Rattle.ranked.specs.First.{IsFirst, Clear};
ghost use Rattle.place_laws.specs.Shapes.{FitPlaces};
ghost use Rattle.wr_rules.specs.Accepted.{Accepted, Broken, Proper};
ghost use Rattle.type_rules.specs.Answers.{RefusedFirst, OnlyMemory, Refuses};

use crate::faults::first_fault;
use std::alloc::Global;
use wr_base::{PlacedTypes, Refusal, Stop};

/// Whether a set is accepted, wherever its declarations stand; else the first entry that is broken, of the rules before the limits, by place, order in the table and word.
pub fn check(alloc: Global, types: &PlacedTypes) -> Result<(), Stop<Refusal>>
    // Names are identifiers within their limits, uses are shallow, and instances have arguments.
    requires proper { Proper types.now.types }
    // Each declaration has a place, and each of its parts.
    requires places { FitPlaces types.now.types types.now.places }
    // Where the answer is Ok the set is accepted.
    ensures accepted { OnOk result (Accepted types.now.types) }
    // And nothing is broken in it where it stands.
    ensures clear { OnOk result (Clear (Broken types.now.types types.now.places)) }
    // An accepted set isn't refused.
    ensures ok { Accepted types.now.types → OnlyMemory result }
    // Nor is one in which nothing is broken.
    ensures only { Clear (Broken types.now.types types.now.places) → OnlyMemory result }
    // A refusal is the first entry that is broken.
    ensures refused { IfErr result (λ stop. RefusedFirst types.now.types types.now.places stop) }
    // The first entry that is broken is refused, unless memory runs out.
    ensures first { (e : Entry) → IsFirst (Broken types.now.types types.now.places) (Some e) → Refuses e result }
{
    match first_fault(alloc, types)? {
        Some(refusal) => Err(Stop::Refused(refusal)),
        None => Ok(()),
    }
}
