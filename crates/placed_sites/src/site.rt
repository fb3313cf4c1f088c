//! A declaration with its places.

ghost use Rattle.std.specs.Prelude.{◌≡◌, ◌<◌, Some, length, slice_get};
ghost use Rattle.wr_rules.specs.Sites.{sites_of, spot_of, part_spot};
ghost use Rattle.placed_sites.specs.Views.{site_view, spot_view};

use crate::spot::Spot;
use wr_base::{DeclPlaces, Declaration, Name, Place, PlacedTypes};

/// A declaration with the places of it and of its parts.
#[derive(Clone, Copy, Debug)]
pub struct Site<'a> {
    pub declaration: &'a Declaration,
    pub places: &'a DeclPlaces,
}

impl<'a> Site<'a> {
    /// The declaration of this number in the set, from 0, with its places.
    #[tactic(auto, using(crate::proofs::Firsts::site_at))]
    pub fn at(types: &'a PlacedTypes, i: u32) -> Site<'a>
        requires declared { i < length types.now.types }
        requires placed { i < length types.now.places }
        ensures { slice_get (sites_of types.now.types types.now.places) i ≡ Some (site_view result) }
    {
        Site {
            declaration: types.types.at(i),
            places: types.places.at(i as usize),
        }
    }

    /// Where the declaration stands.
    pub fn spot(&self) -> Spot<'a>
        ensures { spot_view result ≡ spot_of (site_view self.now) }
    {
        Spot {
            place: self.places.at,
            declaration: self.declaration.name(),
            part: None,
        }
    }

    /// Where a part of this name stands that has this place.
    pub fn part_spot(&self, place: Place, name: &'a Name) -> Spot<'a>
        ensures { spot_view result ≡ part_spot (site_view self.now) place name.now }
    {
        Spot {
            place,
            declaration: self.declaration.name(),
            part: Some(name),
        }
    }
}
