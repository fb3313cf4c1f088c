//! Where declarations stand, in order.

ghost use Rattle.std.specs.Prelude.{◌≡◌, ◌≤◌, ◌<◌, IfOk, OnOk, length};
ghost use Rattle.std.specs.Ordering.{nat_cmp};
ghost use Rattle.std.specs.List.Sorted.{IsPermutation, IsSortedByKey};
ghost use Rattle.std.specs.Cmp.Lexicographic.{slice_cmp};
ghost use Rattle.wr_rules.specs.Sites.{sites_of};
ghost use Rattle.place_order.specs.Stands.{key, stands_of, IsPlaceOrder};

use placed_sites::Site;
use std::alloc::{AllocError, Global};
use std::cmp::Ordering;
use wr_base::{Place, PlacedTypes};

/// The place of a declaration, and its number in the set, from 0.
#[derive(Clone, Copy, Debug)]
pub struct Stand {
    pub place: Place,
    pub number: u32,
}

fn compare(a: &Stand, b: &Stand) -> Ordering
    ensures { result ≡ slice_cmp nat_cmp (key a.now) (key b.now) }
{
    let files = a.place.file.cmp(&b.place.file);
    let offsets = a.place.offset.cmp(&b.place.offset);
    let numbers = a.number.cmp(&b.number);
    files.then(offsets).then(numbers)
}

// How many declarations have places.
fn site_count(types: &PlacedTypes) -> u32
    ensures declared { result ≤ length types.now.types }
    ensures placed { result ≤ length types.now.places }
    ensures count { result ≡ length (sites_of types.now.types types.now.places) }
{
    let declared = types.types.len();
    let placed = types.places.len();
    if placed < declared as usize {
        placed as u32
    } else {
        declared
    }
}

fn stands_of(alloc: Global, types: &PlacedTypes) -> Result<Vec<Stand>, AllocError>
    ensures { IfOk result (λ stands. stands.items ≡ stands_of (sites_of types.now.types types.now.places)) }
{
    let mut stands = Vec::new(alloc);
    for i in 0..site_count(types) {
        let site = Site::at(types, i);
        stands.push(Stand {
            place: site.places.at,
            number: i,
        })?;
    }
    Ok(stands)
}

fn sort_stands(list: &mut Vec<Stand>) -> Result<(), AllocError>
    ensures permutation { IsPermutation list.old.items list.new.items }
    ensures sorted { OnOk result (IsSortedByKey key (slice_cmp nat_cmp) list.new.items) }
{
    list.sort_by(|a, b| compare(a, b))?;
    Ok(())
}

/// All declarations that have places, in the order of places and then of numbers.
pub fn in_place_order(alloc: Global, types: &PlacedTypes) -> Result<Vec<Stand>, AllocError>
    ensures { IfOk result (λ stands. IsPlaceOrder (sites_of types.now.types types.now.places) stands.items) }
{
    let mut stands = stands_of(alloc, types)?;
    sort_stands(&mut stands)?;
    Ok(stands)
}
