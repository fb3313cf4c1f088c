//! The first entries of the rules on lists, and of structs that hold themselves.

ghost use Rattle.std.specs.Prelude.{◌≡◌, IfOk};
ghost use Rattle.ranked.specs.First.{IsFirst, Or, Among};
ghost use Rattle.wr_rules.specs.Sites.{sites_of};
ghost use Rattle.wr_rules.specs.ListRules.{lacks, listed_in, IsNotClosed, IsStructCycle, IsRequiresCycle, IsMemberClash};
ghost use Rattle.list_rules.specs.Open.{FlagsAre, lists_itself, clash_listed};

use crate::open::{ListFlags, list_flags};
use crate::twice::clash_flags;
use flagged_sites::first_flagged;
use ranked::earlier;
use std::alloc::{AllocError, Global};
use struct_cycles::struct_cycles;
use wr_base::{Code, PlacedTypes, Refusal};

fn first_cyclic(
    alloc: Global,
    types: &PlacedTypes,
    flags: &ListFlags,
) -> Result<Option<Refusal>, AllocError>
    requires open { FlagsAre (λ d. lacks types.now.types (listed_in d)) types.now.types flags.now.open.items }
    requires cyclic { FlagsAre lists_itself types.now.types flags.now.cyclic.items }
    ensures { IfOk result (IsFirst (Or (Among (sites_of types.now.types types.now.places) (IsNotClosed types.now.types)) (Among (sites_of types.now.types types.now.places) (IsRequiresCycle types.now.types)))) }
{
    let open = first_flagged(alloc, types, flags.open.as_slice(), Code::NotClosed)?;
    let cyclic = first_flagged(alloc, types, flags.cyclic.as_slice(), Code::RequiresCycle)?;
    Ok(earlier(open, cyclic))
}

fn first_clash(
    alloc: Global,
    types: &PlacedTypes,
    open: &[bool],
    clash: &[bool],
) -> Result<Option<Refusal>, AllocError>
    requires open { FlagsAre (λ d. lacks types.now.types (listed_in d)) types.now.types open.now }
    requires clash { FlagsAre (clash_listed types.now.types) types.now.types clash.now }
    ensures { IfOk result (IsFirst (Or (Among (sites_of types.now.types types.now.places) (IsNotClosed types.now.types)) (Among (sites_of types.now.types types.now.places) (IsMemberClash types.now.types)))) }
{
    let open = first_flagged(alloc, types, open, Code::NotClosed)?;
    let clash = first_flagged(alloc, types, clash, Code::MemberClash)?;
    Ok(earlier(open, clash))
}

fn first_told(
    alloc: Global,
    types: &PlacedTypes,
    flags: &ListFlags,
    clash: &[bool],
) -> Result<Option<Refusal>, AllocError>
    requires open { FlagsAre (λ d. lacks types.now.types (listed_in d)) types.now.types flags.now.open.items }
    requires cyclic { FlagsAre lists_itself types.now.types flags.now.cyclic.items }
    requires clash { FlagsAre (clash_listed types.now.types) types.now.types clash.now }
    ensures { IfOk result (IsFirst (Or (Among (sites_of types.now.types types.now.places) (IsNotClosed types.now.types))
        (Or (Among (sites_of types.now.types types.now.places) (IsRequiresCycle types.now.types)) (Among (sites_of types.now.types types.now.places) (IsMemberClash types.now.types))))) }
{
    let first = first_cyclic(alloc, types, flags)?;
    let second = first_clash(alloc, types, flags.open.as_slice(), clash)?;
    Ok(earlier(first, second))
}

/// The first entry of the three rules on what lists lead to: that they are closed, that no interface is in its closed list, and that no two interfaces
/// of one list share a name.
pub fn first_of_lists(alloc: Global, types: &PlacedTypes) -> Result<Option<Refusal>, AllocError>
    ensures { IfOk result (IsFirst (Or (Among (sites_of types.now.types types.now.places) (IsNotClosed types.now.types))
        (Or (Among (sites_of types.now.types types.now.places) (IsRequiresCycle types.now.types)) (Among (sites_of types.now.types types.now.places) (IsMemberClash types.now.types))))) }
{
    let flags = list_flags(alloc, &types.types)?;
    let clash = clash_flags(alloc, &types.types)?;
    first_told(alloc, types, &flags, clash.as_slice())
}

/// The first struct that holds itself, at any depth.
pub fn first_struct_cycle(alloc: Global, types: &PlacedTypes) -> Result<Option<Refusal>, AllocError>
    ensures { IfOk result (IsFirst (Among (sites_of types.now.types types.now.places) (IsStructCycle types.now.types))) }
{
    let on = struct_cycles(alloc, &types.types)?;
    first_flagged(alloc, types, on.as_slice(), Code::StructCycle)
}
