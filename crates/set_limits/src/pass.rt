//! The pass over declarations in the order of their places, with what was counted so far.

ghost use Rattle.std.specs.Prelude.{◌≡◌, ◌<◌, ◌+◌, ◌==◌, ℕ, Some, IfOk, IsTrue, sum, map, length, slice_get, take};
ghost use Rattle.std.specs.List.{sum_by};
ghost use Rattle.ranked.specs.First.{IsFirst, Or};
ghost use Rattle.wr_rules.specs.Sites.{Site as RuleSite, sites_of};
ghost use Rattle.wr_rules.specs.Limits.{before, passes, names_in, IsManyTypes, IsManyNames};
ghost use Rattle.placed_sites.specs.Views.{site_view};
ghost use Rattle.place_order.specs.Stands.{IsPlaceOrder, count_at};
ghost use Rattle.set_limits.specs.Counts.{capped};
ghost use Rattle.std.specs.Prelude.{nat_le, nat_lt, ◌&&◌};
ghost use Rattle.set_limits.specs.Pass.{Past, TypesOrNames, IsStep, PastBy};

use crate::counts::{add, names_in};
use place_order::{Stand, in_place_order};
use placed_sites::{Site, refuse_if};
use ranked::earlier;
use std::alloc::{AllocError, Global};
use wr_base::{Code, PlacedTypes, Refusal};

fn stand_at(stands: &[Stand], i: usize) -> Stand
    requires { i < length stands.now }
    ensures { slice_get stands.now i ≡ Some result }
{
    stands[i]
}

// The declaration that stands there.
fn site_of<'a>(types: &'a PlacedTypes, stands: &[Stand], i: usize) -> Site<'a>
    requires order { IsPlaceOrder (sites_of types.now.types types.now.places) stands.now }
    requires within { i < length stands.now }
    ensures { IsStep (sites_of types.now.types types.now.places) stands.now i (site_view result) }
{
    let stand = stand_at(stands, i);
    Site::at(types, stand.number)
}

fn is_past(limit: u64, sum: u64, next: u64) -> bool
    ensures { result ≡ (nat_le sum limit && nat_lt limit next) }
{
    sum <= limit && limit < next
}

fn past_at(
    alloc: Global,
    site: &Site,
    place: usize,
    names: u64,
    next: u64,
) -> Result<Option<Refusal>, AllocError>
    ensures { IfOk result (IsFirst (PastBy place names next (site_view site.now))) }
{
    let types = refuse_if(alloc, &site.spot(), place == 20000, Code::ManyTypes)?;
    let names = refuse_if(
        alloc,
        &site.spot(),
        is_past(500000, names, next),
        Code::ManyNames,
    )?;
    Ok(earlier(types, names))
}

fn first_past(
    alloc: Global,
    types: &PlacedTypes,
    stands: &[Stand],
) -> Result<Option<Refusal>, AllocError>
    requires { IsPlaceOrder (sites_of types.now.types types.now.places) stands.now }
    ensures { IfOk result (IsFirst (Past (sites_of types.now.types types.now.places) TypesOrNames)) }
{
    let mut first = None;
    let mut names = 0u64;
    for i in 0..stands.len() {
        let site = site_of(types, stands, i);
        let count = names_in(alloc, &site)?;
        let next = add(names, count);
        first = earlier(first, past_at(alloc, &site, i, names, next)?);
        names = next;
    }
    Ok(first)
}

/// The first declaration, in the order of places and then of names, with which the set has more than 20,000 types, or more than 500,000 cases, fields,
/// members and parameters.
pub fn first_past_limits(alloc: Global, types: &PlacedTypes) -> Result<Option<Refusal>, AllocError>
    ensures { IfOk result (IsFirst (Past (sites_of types.now.types types.now.places) TypesOrNames)) }
{
    let stands = in_place_order(alloc, types)?;
    first_past(alloc, types, stands.as_slice())
}
