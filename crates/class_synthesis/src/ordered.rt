//! Declarations with their places in the order of full names.

ghost use Rattle.std.specs.Prelude.{◌≡◌, ◌∷◌, [], ◌++◌, ◌<◌, ◌^◌, IfOk, OnOk, length, map};
ghost use Rattle.std.specs.Ordering.{nat_cmp};
ghost use Rattle.std.specs.Cmp.Lexicographic.{slice_cmp};
ghost use Rattle.std.specs.List.{IsDistinct};
ghost use Rattle.std.specs.List.Sorted.{IsPermutation, IsSortedByKey};
ghost use Rattle.std.specs.Str.{bytes_eq};
ghost use Rattle.wr_base.specs.Declarations.{IsInOrder};
ghost use Rattle.wr_base.specs.Normal.{normal};
ghost use Rattle.closed_lists.specs.Indexes.{names_in};
ghost use Rattle.closed_lists.specs.Views.{decls_in, sites_in};
ghost use Rattle.class_synthesis.specs.Ordered.{placed_name, places_in, IsOrdered};

use closed_lists::PlacedDeclaration;
use std::alloc::{AllocError, Global};
use wr_base::{DeclPlaces, Declaration, Listed, PlacedTypes, Stop, Types};

fn sort_by_name(list: &mut Vec<PlacedDeclaration>) -> Result<(), AllocError>
    ensures permutation { IsPermutation list.old.items list.new.items }
    ensures sorted { OnOk result (IsSortedByKey placed_name (slice_cmp nat_cmp) list.new.items) }
{
    list.sort_by(|a, b| {
        a.declaration
            .name()
            .as_str()
            .cmp(b.declaration.name().as_str())
    })?;
    Ok(())
}

/// Declarations, and beside them their places.
#[derive(Drop)]
struct Parted {
    declarations: Vec<Declaration>,
    places: Vec<DeclPlaces>,
}

impl Parted {
    fn push(&mut self, site: PlacedDeclaration) -> Result<(), AllocError>
        ensures declarations { OnOk result (self.new.declarations.items ≡ self.old.declarations.items ++ site.declaration ∷ []) }
        ensures places { OnOk result (self.new.places.items ≡ self.old.places.items ++ site.places ∷ []) }
    {
        let PlacedDeclaration {
            declaration,
            places,
        } = site;
        self.declarations.push(declaration)?;
        self.places.push(places)?;
        Ok(())
    }
}

fn apart(alloc: Global, list: Vec<PlacedDeclaration>) -> Result<Parted, AllocError>
    ensures declarations { IfOk result (λ parted. parted.declarations.items ≡ decls_in list.items) }
    ensures places { IfOk result (λ parted. parted.places.items ≡ places_in list.items) }
{
    let mut parted = Parted {
        declarations: Vec::new(alloc),
        places: Vec::new(alloc),
    };
    for site in list {
        parted.push(site)?;
    }
    Ok(parted)
}

fn types_of(alloc: Global, declarations: Vec<Declaration>) -> Result<Types, AllocError>
    requires { IsInOrder declarations.items }
    ensures exact { IfOk result (λ types. types ≡ map normal declarations.items) }
    ensures order { IfOk result IsInOrder }
{
    match Types::from_list(alloc, declarations) {
        Ok(types) => Ok(types),
        Err(Stop::Memory) => Err(AllocError),
        Err(Stop::Refused(_)) => unreachable!(),
    }
}

fn typed(alloc: Global, list: Vec<PlacedDeclaration>) -> Result<PlacedTypes, AllocError>
    requires { IsInOrder (decls_in list.items) }
    ensures types { IfOk result (λ typed. typed.types ≡ map normal (decls_in list.items)) }
    ensures places { IfOk result (λ typed. typed.places ≡ places_in list.items) }
    ensures order { IfOk result (λ typed. IsInOrder typed.types) }
{
    let Parted {
        declarations,
        places,
    } = apart(alloc, list)?;
    let types = types_of(alloc, declarations)?;
    Ok(PlacedTypes {
        types,
        places: Listed::from_vec(places),
    })
}

/// The declarations in the order of their names, which are apart, each with its places.
pub(crate) fn in_order(
    alloc: Global,
    list: Vec<PlacedDeclaration>,
) -> Result<PlacedTypes, AllocError>
    requires apart { IsDistinct bytes_eq (names_in list.items) }
    requires short { length list.items < 2 ^ 32 }
    ensures { IfOk result (IsOrdered (sites_in list.items)) }
{
    let mut list = list;
    sort_by_name(&mut list)?;
    typed(alloc, list)
}
