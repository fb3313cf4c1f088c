//! Where declarations and their parts stand.

ghost use Rattle.std.specs.Prelude.{◌≡◌, ◌+◌, ◌<◌, ◌^◌, ◌↔◌, IsTrue, IfOk};
ghost use Rattle.wr_base.specs.Places.{numbered, plain_from, total, part_count, placed};

use crate::{Declaration, Listed, Place, Types};
use std::alloc::{AllocError, Global};

/// The places of a declaration's members, cases or fields, in order.
pub type PlaceList = Listed<Place>;

/// Where a declaration stands, and its members, cases or fields.
#[derive(Debug, Drop)]
pub struct DeclPlaces {
    pub at: Place,
    pub parts: PlaceList,
}

/// The places of declarations, in order.
pub type Places = Listed<DeclPlaces>;

fn count_parts(declaration: &Declaration) -> usize
    ensures { result ≡ part_count declaration.now }
{
    match declaration {
        Declaration::Enum { cases, .. } => cases.len(),
        Declaration::Struct { fields, .. } => fields.len(),
        Declaration::Interface { members, .. } => members.len(),
        Declaration::Delegate { .. } => 0,
        Declaration::Class { .. } => 0,
    }
}

fn number(alloc: Global, from: usize, count: usize) -> Result<PlaceList, AllocError>
    requires { from + count < 2 ^ 32 }
    ensures { IfOk result (λ places. places ≡ numbered from count) }
{
    let mut places = Listed::new(alloc);
    for k in 0..count {
        places.push(Place {
            file: 0,
            offset: (from + k) as u32,
        })?;
    }
    Ok(places)
}

fn place_one(
    alloc: Global,
    next: usize,
    declaration: &Declaration,
) -> Result<DeclPlaces, AllocError>
    requires { next + 1 + part_count declaration.now < 2 ^ 32 }
    ensures { IfOk result (λ places. places ≡ placed next declaration.now) }
{
    let parts = number(alloc, next + 1, count_parts(declaration))?;
    Ok(DeclPlaces {
        at: Place {
            file: 0,
            offset: next as u32,
        },
        parts,
    })
}

impl Listed<DeclPlaces> {
    /// Whether there are fewer than 2^32 declarations and parts together.
    pub fn fits(types: &Types) -> bool
        ensures { IsTrue result ↔ (total types.now < 2 ^ 32) }
    {
        let last = u32::MAX as usize;
        let mut next = 0usize;
        for i in 0..types.len() {
            let parts = count_parts(types.at(i));
            if parts >= last - next {
                return false;
            }
            next += 1 + parts;
        }
        true
    }

    /// Numbers the declarations and their parts in order, for types that come from no file.
    pub fn plain(alloc: Global, types: &Types) -> Result<Places, AllocError>
        requires { total types.now < 2 ^ 32 }
        ensures { IfOk result (λ places. places ≡ plain_from 0 types.now) }
    {
        let mut places = Listed::new(alloc);
        let mut next = 0usize;
        for i in 0..types.len() {
            let declaration = types.at(i);
            places.push(place_one(alloc, next, declaration)?)?;
            next += 1 + count_parts(declaration);
        }
        Ok(places)
    }
}

impl Clone for DeclPlaces {
    ghost is_clone = { λ a b. b ≡ a };

    fn clone(&self) -> Result<DeclPlaces, AllocError> {
        Ok(DeclPlaces {
            at: self.at,
            parts: self.parts.clone()?,
        })
    }
}

/// Types and where they stand.
#[derive(Debug, Drop)]
pub struct PlacedTypes {
    pub types: Types,
    pub places: Places,
}

impl Clone for PlacedTypes {
    ghost is_clone = { λ a b. b ≡ a };

    fn clone(&self) -> Result<PlacedTypes, AllocError> {
        Ok(PlacedTypes {
            types: self.types.clone()?,
            places: self.places.clone()?,
        })
    }
}
