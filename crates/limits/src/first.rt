//! The first limit that a set passes.

ghost use Rattle.std.specs.Prelude.{IfOk};
ghost use Rattle.ranked.specs.First.{IsFirst, Among, Or};
ghost use Rattle.wr_rules.specs.Sites.{sites_of};
ghost use Rattle.wr_rules.specs.Limits.{Limits, IsManyMembers, IsManyParams, IsLongFullName};
ghost use Rattle.limits.specs.Single.{PastAlone};

use placed_sites::{Both, first_in};
use ranked::earlier;
use set_limits::first_past_limits;
use site_limits::{LongFullName, ManyMembers, ManyParams};
use std::alloc::{AllocError, Global};
use use_limits::first_past_uses;
use wr_base::{PlacedTypes, Refusal};

fn first_alone(alloc: Global, types: &PlacedTypes) -> Result<Option<Refusal>, AllocError>
    ensures { IfOk result (IsFirst (Among (sites_of types.now.types types.now.places) PastAlone)) }
{
    let rules = Both {
        first: ManyMembers,
        second: Both {
            first: ManyParams,
            second: LongFullName,
        },
    };
    first_in(alloc, &rules, types)
}

/// The first entry of the six limits: types, members, parameters, the length of full names, names, and uses.
pub fn first_limit(alloc: Global, types: &PlacedTypes) -> Result<Option<Refusal>, AllocError>
    ensures { IfOk result (IsFirst (Limits (sites_of types.now.types types.now.places))) }
{
    let alone = first_alone(alloc, types)?;
    let names = first_past_limits(alloc, types)?;
    let uses = first_past_uses(alloc, types)?;
    Ok(earlier(earlier(alone, names), uses))
}
