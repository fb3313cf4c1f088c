//! Where a declaration of a name stands in a list.

ghost use Rattle.std.specs.Prelude.{◌≡◌, ◌∷◌, [], ◌<◌, ◌^◌, Some, None, ℕ, List, IfOk, OnOk, map, length, slice_get, string_bytes};
ghost use Rattle.wr_base.specs.Declarations.{declared_as};
ghost use Rattle.std.specs.HashMap.{Updates, get_by_text};
ghost use Rattle.std.specs.String.{string_eq};
ghost use Rattle.wr_rules.specs.Closures.{required_at, requires_of};
ghost use Rattle.std.specs.Option.{option_or, option_copied};
ghost use Rattle.std.specs.Str.{bytes_eq};
ghost use Rattle.closed_lists.specs.Indexes.{names_in, place_if, Indexes};
ghost use Rattle.closed_lists.specs.Views.{decls_in};

use crate::site::PlacedDeclaration;
use std::alloc::{AllocError, Global};
use std::collections::HashMap;
use wr_base::{Declaration, TypeUse};

fn put(index: &mut HashMap<String, usize>, name: String, place: usize) -> Result<(), AllocError>
    ensures { OnOk result (Updates string_eq index.old index.new name (Some place)) }
{
    match index.insert(name, place) {
        Ok(_) => Ok(()),
        Err(_) => Err(AllocError),
    }
}

fn place_of(index: &HashMap<String, usize>, name: &str) -> Option<usize>
    ensures { result ≡ get_by_text index.now name.now }
{
    match index.get(name) {
        Some(place) => Some(*place),
        None => None,
    }
}

// The first of one name stays.
fn add(
    alloc: Global,
    index: &mut HashMap<String, usize>,
    name: &str,
    place: usize,
) -> Result<(), AllocError>
    ensures { OnOk result ((q : List ℕ) → get_by_text index.new q ≡ option_or (get_by_text index.old q) (place_if (bytes_eq name.now q) place)) }
{
    match place_of(index, name) {
        Some(_) => Ok(()),
        None => put(index, String::from_str(alloc, name)?, place),
    }
}

/// Where the first declaration of each full name stands.
pub(crate) fn index_of(
    alloc: Global,
    sites: &[PlacedDeclaration],
) -> Result<HashMap<String, usize>, AllocError>
    ensures { IfOk result (λ index. Indexes index (names_in sites.now)) }
{
    let mut index = HashMap::new(alloc);
    for i in 0..sites.len() {
        add(alloc, &mut index, sites[i].declaration.name().as_str(), i)?;
    }
    Ok(index)
}

fn declaration_at(sites: &[PlacedDeclaration], place: usize) -> Option<&Declaration>
    ensures { option_copied result ≡ slice_get (decls_in sites.now) place }
{
    match sites.get(place) {
        None => None,
        Some(site) => Some(&site.declaration),
    }
}

fn find<'a>(
    sites: &'a [PlacedDeclaration],
    index: &HashMap<String, usize>,
    name: &str,
) -> Option<&'a Declaration>
    requires { Indexes index.now (names_in sites.now) }
    ensures { option_copied result ≡ declared_as (decls_in sites.now) name.now }
{
    match place_of(index, name) {
        None => None,
        Some(place) => declaration_at(sites, place),
    }
}

fn requires_of(declaration: &Declaration) -> &[TypeUse]
    ensures { result.now ≡ requires_of (Some declaration.now) }
{
    match declaration {
        Declaration::Interface { requires_, .. } => requires_.as_slice(),
        _ => &[],
    }
}

/// What an interface requires as it is listed, by its text.
pub(crate) fn required<'a>(
    sites: &'a [PlacedDeclaration],
    index: &HashMap<String, usize>,
    text: &str,
) -> &'a [TypeUse]
    requires { Indexes index.now (names_in sites.now) }
    ensures { result.now ≡ required_at (decls_in sites.now) text.now }
{
    match find(sites, index, text) {
        None => &[],
        Some(declaration) => requires_of(declaration),
    }
}
