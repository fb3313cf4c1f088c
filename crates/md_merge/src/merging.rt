//! The union of sets, where there is one and the rules and limits hold.

ghost use Rattle.std.specs.Prelude.{◌≡◌, ◌<◌, ◌^◌, List, IfOk, IfErr};
ghost use Rattle.std.specs.List.{All};
ghost use Rattle.type_rules.specs.Answers.{RefusedFirst};
ghost use Rattle.wr_base.specs.Places.{total, plain_from};
ghost use Rattle.wr_base.specs.declared.declaration.Declaration.{Declaration};
ghost use Rattle.wr_rules.specs.Accepted.{Accepted, Proper};
ghost use Rattle.md_merge.specs.Unions.{all_of, IsUnion, OnRefused};
ghost use Rattle.md_merge.specs.Merged.{IsSet, IsMerged, IsRefusalOf, Gives, Refuses};
ghost use Rattle.md_merge.specs.declared.refusal.MergeRefusal.{MergeRefusal};

use crate::refusal::MergeRefusal;
use crate::united::united;
use std::alloc::Global;
use type_rules::check;
use wr_base::{Listed, PlacedTypes, Refusal, Stop, Types};

// The rules and limits are asked of a set in plain places.
fn check_plain(alloc: Global, types: Types) -> Result<Types, Stop<Refusal>>
    requires proper { Proper types }
    requires few { total types < 2 ^ 32 }
    ensures same { IfOk result (λ checked. checked ≡ types) }
    ensures accepted { IfOk result Accepted }
    ensures refused { IfErr result (RefusedFirst types (plain_from 0 types)) }
{
    let places = Listed::plain(alloc, &types)?;
    let placed = PlacedTypes { types, places };
    check(alloc, &placed)?;
    Ok(placed.types)
}

fn accepted_union(alloc: Global, sets: &[Types], types: Types) -> Result<Types, Stop<MergeRefusal>>
    requires union { IsUnion sets.now types }
    requires proper { Proper types }
    requires few { total types < 2 ^ 32 }
    ensures ok { IfOk result (IsMerged sets.now) }
    ensures refused { IfErr result (OnRefused (IsRefusalOf sets.now)) }
{
    match check_plain(alloc, types) {
        Ok(types) => Ok(types),
        Err(Stop::Memory) => Err(Stop::Memory),
        Err(Stop::Refused(refusal)) => Err(Stop::Refused(MergeRefusal::Broken(refusal))),
    }
}

fn merged(alloc: Global, sets: &[Types]) -> Result<Types, Stop<MergeRefusal>>
    requires each { All IsSet sets.now }
    requires few { total (all_of sets.now) < 2 ^ 32 }
    ensures ok { IfOk result (IsMerged sets.now) }
    ensures refused { IfErr result (OnRefused (IsRefusalOf sets.now)) }
{
    match united(alloc, sets) {
        Ok(types) => accepted_union(alloc, sets, types),
        Err(Stop::Memory) => Err(Stop::Memory),
        Err(Stop::Refused(name)) => Err(Stop::Refused(MergeRefusal::Conflict(name))),
    }
}

/// The union of sets, in the order of full names. Refused is the least full name of which two declarations differ; where no two differ,
/// the first of the rules and limits that is broken in the union.
pub fn merge(alloc: Global, sets: &[Types]) -> Result<Types, Stop<MergeRefusal>>
    // Of each set, names are identifiers within their limits, uses are shallow, instances have arguments, and lists that stand for sets are in order.
    requires each { All IsSet sets.now }
    // There are fewer than 2^32 declarations and parts together.
    requires few { total (all_of sets.now) < 2 ^ 32 }
    // Ok is the union, which is accepted.
    ensures ok { IfOk result (IsMerged sets.now) }
    // A union that is accepted is the answer, unless memory runs out.
    ensures merged { (types : List Declaration) → IsMerged sets.now types → Gives types result }
    // A refusal is the least conflict, or the first entry that is broken in the union.
    ensures refused { IfErr result (OnRefused (IsRefusalOf sets.now)) }
    // Where there is such a refusal it is the answer, unless memory runs out.
    ensures refusal { (refusal : MergeRefusal) → IsRefusalOf sets.now refusal → Refuses refusal result }
{
    merged(alloc, sets)
}
