//! The places of a class's parts: of its members, of its static members and of its constructors.

ghost use Rattle.std.specs.Prelude.{◌≡◌, IfOk, OnOk, List, ℕ, take, drop, slice_get};
ghost use Rattle.made_interfaces.specs.Made.{first_place, placed_at, member_places, static_places, chosen, factory_places};
ghost use Rattle.std.specs.Option.{option_copied};
ghost use Rattle.made_interfaces.specs.Steps.{places_with};

use crate::wants::takes_some;
use placed_items::WrittenClass;
use sqlite_items::at;
use std::alloc::{AllocError, Global};
use wr_base::{DeclPlaces, Listed, Place, Signature};

fn first(at: Place, parts: &[Place]) -> Place
    ensures { result ≡ first_place at parts.now }
{
    match parts {
        [] => at,
        [part, ..] => *part,
    }
}

/// An interface that is made stands at its first part, or at its class's name.
pub(crate) fn placed_at(alloc: Global, at: Place, parts: &[Place]) -> Result<DeclPlaces, AllocError>
    ensures { IfOk result (λ places. places ≡ placed_at at parts.now) }
{
    let listed = Vec::from_slice(alloc, parts)?;
    Ok(DeclPlaces {
        at: first(at, parts),
        parts: Listed::from_vec(listed),
    })
}

// The first so many places, and the others.
fn cut(places: &[Place], count: usize) -> (&[Place], &[Place])
    ensures first { result.0.now ≡ take count places.now }
    ensures rest { result.1.now ≡ drop count places.now }
{
    if count >= places.len() {
        return (places, &[]);
    }
    places.split_at(count)
}

/// The places of the members, which stand first.
pub(crate) fn of_members<'a>(class: &WrittenClass, parts: &'a [Place]) -> &'a [Place]
    ensures { result.now ≡ member_places class.now parts.now }
{
    cut(parts, class.members.len()).0
}

/// The places of the static members.
pub(crate) fn of_statics<'a>(class: &WrittenClass, parts: &'a [Place]) -> &'a [Place]
    ensures { result.now ≡ static_places class.now parts.now }
{
    let rest = cut(parts, class.members.len()).1;
    cut(rest, class.statics.len()).0
}

fn push_place(
    places: &mut Vec<Place>,
    constructor: &Signature,
    place: Option<&Place>,
) -> Result<(), AllocError>
    ensures { OnOk result (places.new.items ≡ places_with places.old.items constructor.now (option_copied place.entry)) }
{
    match place {
        Some(place) => {
            if takes_some(constructor) {
                places.push(*place)?;
            }
            Ok(())
        }
        None => Ok(()),
    }
}

fn chosen(
    alloc: Global,
    constructors: &[Signature],
    places: &[Place],
) -> Result<Vec<Place>, AllocError>
    ensures { IfOk result (λ found. found.items ≡ chosen constructors.now places.now) }
{
    let mut found = Vec::new(alloc);
    for i in 0..constructors.len() {
        push_place(&mut found, &constructors[i], at(places, i))?;
    }
    Ok(found)
}

/// The places of the constructors with parameters.
pub(crate) fn of_factory(
    alloc: Global,
    class: &WrittenClass,
    parts: &[Place],
) -> Result<Vec<Place>, AllocError>
    ensures { IfOk result (λ places. places.items ≡ factory_places class.now parts.now) }
{
    let rest = cut(parts, class.members.len()).1;
    let others = cut(rest, class.statics.len()).1;
    chosen(alloc, class.constructors.as_slice(), others)
}
