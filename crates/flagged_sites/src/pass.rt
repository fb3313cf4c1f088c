//! The pass over declarations and their flags.

ghost use Rattle.std.specs.Prelude.{◌≡◌, ◌≤◌, false, IfOk, length, slice_index_or};
ghost use Rattle.ranked.specs.First.{IsFirst};
ghost use Rattle.wr_rules.specs.Sites.{sites_of, If, spot_of};
ghost use Rattle.placed_sites.specs.Views.{site_view};
ghost use Rattle.flagged_sites.specs.Flags.{Flagged, flag_of};

use placed_sites::{Site, refuse_if};
use ranked::earlier;
use std::alloc::{AllocError, Global};
use wr_base::{Code, PlacedTypes, Refusal};

// How many declarations have places.
fn site_count(types: &PlacedTypes) -> u32
    ensures declared { result ≤ length types.now.types }
    ensures placed { result ≤ length types.now.places }
    ensures count { result ≡ length (sites_of types.now.types types.now.places) }
{
    let declared = types.types.len();
    let placed = types.places.len();
    if placed < declared as usize {
        placed as u32
    } else {
        declared
    }
}

fn flag_of(flags: &[bool], i: usize) -> bool
    ensures { result ≡ flag_of flags.now i }
{
    match flags.get(i) {
        Some(flag) => *flag,
        None => false,
    }
}

fn refuse_at(
    alloc: Global,
    site: &Site,
    told: bool,
    code: Code,
) -> Result<Option<Refusal>, AllocError>
    ensures { IfOk result (IsFirst (If told code (spot_of (site_view site.now)))) }
{
    refuse_if(alloc, &site.spot(), told, code)
}

/// The first of the declarations that the flags tell, refused with this code at its name. Past the end no flag tells.
pub fn first_flagged(
    alloc: Global,
    types: &PlacedTypes,
    flags: &[bool],
    code: Code,
) -> Result<Option<Refusal>, AllocError>
    ensures { IfOk result (IsFirst (Flagged (sites_of types.now.types types.now.places) flags.now code)) }
{
    let mut first = None;
    for i in 0..site_count(types) {
        let site = Site::at(types, i);
        let told = flag_of(flags, i as usize);
        first = earlier(first, refuse_at(alloc, &site, told, code)?);
    }
    Ok(first)
}
