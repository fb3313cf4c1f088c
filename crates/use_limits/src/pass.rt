//! The pass over declarations in the order of their places, with the uses that were counted so far.

ghost use Rattle.std.specs.Prelude.{◌≡◌, ◌<◌, ◌+◌, ℕ, Some, IfOk, length, slice_get, take};
ghost use Rattle.std.specs.List.{sum_by};
ghost use Rattle.ranked.specs.First.{IsFirst};
ghost use Rattle.wr_rules.specs.Sites.{sites_of};
ghost use Rattle.wr_rules.specs.Limits.{IsManyUses, words_in, bytes_in};
ghost use Rattle.placed_sites.specs.Views.{site_view};
ghost use Rattle.place_order.specs.Stands.{IsPlaceOrder};
ghost use Rattle.set_limits.specs.Counts.{capped};
ghost use Rattle.set_limits.specs.Pass.{Past, IsStep};
ghost use Rattle.use_limits.specs.Past.{either_past, PastUses};

use crate::weights::{Bytes, Words, add, weigh_used};
use place_order::{Stand, in_place_order};
use placed_sites::{Site, refuse_if};
use ranked::earlier;
use site_uses::uses_at;
use std::alloc::{AllocError, Global};
use wr_base::{Code, PlacedTypes, Refusal};

/// Bases and names, and the bytes of names.
#[derive(Clone, Copy, Debug)]
struct Totals {
    words: u64,
    bytes: u64,
}

fn stand_at(stands: &[Stand], i: usize) -> Stand
    requires { i < length stands.now }
    ensures { slice_get stands.now i ≡ Some result }
{
    stands[i]
}

// The declaration that stands there.
fn site_of<'a>(types: &'a PlacedTypes, stands: &[Stand], i: usize) -> Site<'a>
    requires order { IsPlaceOrder (sites_of types.now.types types.now.places) stands.now }
    requires within { i < length stands.now }
    ensures { IsStep (sites_of types.now.types types.now.places) stands.now i (site_view result) }
{
    let stand = stand_at(stands, i);
    Site::at(types, stand.number)
}

// The totals with a declaration more.
fn with_site(alloc: Global, totals: Totals, site: &Site) -> Result<Totals, AllocError>
    ensures words { IfOk result (λ next. (S : ℕ) → totals.words ≡ capped S → next.words ≡ capped (S + words_in (site_view site.now))) }
    ensures bytes { IfOk result (λ next. (S : ℕ) → totals.bytes ≡ capped S → next.bytes ≡ capped (S + bytes_in (site_view site.now))) }
{
    let used = uses_at(alloc, site)?;
    let words = weigh_used(&Words, used.as_slice());
    let bytes = weigh_used(&Bytes, used.as_slice());
    Ok(Totals {
        words: add(totals.words, words),
        bytes: add(totals.bytes, bytes),
    })
}

fn is_past(totals: Totals, next: Totals) -> bool
    ensures { result ≡ either_past totals.words totals.bytes next.words next.bytes }
{
    totals.words <= 4000000
        && totals.bytes <= 67108864
        && (4000000 < next.words || 67108864 < next.bytes)
}

fn past_at(
    alloc: Global,
    site: &Site,
    totals: Totals,
    next: Totals,
) -> Result<Option<Refusal>, AllocError>
    ensures { IfOk result (IsFirst (PastUses totals.words totals.bytes next.words next.bytes (site_view site.now))) }
{
    refuse_if(alloc, &site.spot(), is_past(totals, next), Code::ManyUses)
}

fn first_past(
    alloc: Global,
    types: &PlacedTypes,
    stands: &[Stand],
) -> Result<Option<Refusal>, AllocError>
    requires { IsPlaceOrder (sites_of types.now.types types.now.places) stands.now }
    ensures { IfOk result (IsFirst (Past (sites_of types.now.types types.now.places) IsManyUses)) }
{
    let mut first = None;
    let mut totals = Totals { words: 0, bytes: 0 };
    for i in 0..stands.len() {
        let site = site_of(types, stands, i);
        let next = with_site(alloc, totals, &site)?;
        first = earlier(first, past_at(alloc, &site, totals, next)?);
        totals = next;
    }
    Ok(first)
}

/// The first declaration, in the order of places and then of names, with which the set has more than 4,000,000 bases and names in all its uses, or more than
/// 67,108,864 bytes of such names.
pub fn first_past_uses(alloc: Global, types: &PlacedTypes) -> Result<Option<Refusal>, AllocError>
    ensures { IfOk result (IsFirst (Past (sites_of types.now.types types.now.places) IsManyUses)) }
{
    let stands = in_place_order(alloc, types)?;
    first_past(alloc, types, stands.as_slice())
}
