//! The names of types, in lower case and in order, which are asked for the namespaces that hold them: one for each
//! namespace, since names of one namespace are held by the same ones.

ghost use Rattle.std.specs.Prelude.{◌≡◌, ◌≤◌, ◌<◌, ◌+◌, ◌++◌, ◌∷◌, [], ℕ, List, true, IfOk, IsTrue, OnOk, length, string_bytes};
ghost use Rattle.std.specs.BTreeSet.{insert_key};
ghost use Rattle.std.specs.HashSet.{Updates};
ghost use Rattle.std.specs.String.{string_cmp, string_eq};
ghost use Rattle.wr_base.specs.Lower.{lower};
ghost use Rattle.wr_rules.specs.Sites.{sites_of};
ghost use Rattle.wr_rules.specs.NameRules.{all_names};
ghost use Rattle.namespace_rules.specs.Spaces.{holds_in, AddsText, AddsName, Follows, HasSpaces, SameSpaces, SpacesTo};

use placed_sites::Site;
use std::alloc::{AllocError, Global};
use std::collections::{BTreeSet, HashSet};
use wr_base::{FullName, PlacedTypes, lowered};

// What every found type's name begins with, in lower case.
const FOUNDATION: &str = "windows.foundation.";

fn put(set: &mut HashSet<String>, text: String) -> Result<(), AllocError>
    ensures { OnOk result (Updates string_eq set.old set.new text true) }
{
    match set.insert(text) {
        Ok(_) => Ok(()),
        Err(_) => Err(AllocError),
    }
}

/// A text of its own more in the set.
pub(crate) fn add_own(set: &mut HashSet<String>, text: String) -> Result<(), AllocError>
    ensures { OnOk result (AddsText (string_bytes text) set.old set.new) }
{
    put(set, text)
}

/// A text more in the set.
pub fn add_text(alloc: Global, set: &mut HashSet<String>, text: &str) -> Result<(), AllocError>
    ensures { OnOk result (AddsText text.now set.old set.new) }
{
    let text = String::from_str(alloc, text)?;
    add_own(set, text)
}

fn put_name(set: &mut BTreeSet<String>, name: String) -> Result<(), AllocError>
    ensures { OnOk result (set.new.keys ≡ insert_key string_cmp set.old.keys name) }
{
    match set.insert(name) {
        Ok(_) => Ok(()),
        Err(_) => Err(AllocError),
    }
}

// A name more in the set.
fn add_name(set: &mut BTreeSet<String>, name: String) -> Result<(), AllocError>
    ensures { OnOk result (AddsName (string_bytes name) set.old set.new) }
{
    put_name(set, name)
}

fn add_small(alloc: Global, set: &mut BTreeSet<String>, name: &str) -> Result<(), AllocError>
    ensures { OnOk result (AddsName name.now set.old set.new) }
{
    let name = String::from_str(alloc, name)?;
    add_name(set, name)
}

fn add_lower(alloc: Global, set: &mut BTreeSet<String>, name: &str) -> Result<(), AllocError>
    ensures { OnOk result (AddsName (lower name.now) set.old set.new) }
{
    let name = lowered(alloc, name)?;
    add_name(set, name)
}

// Whether a name begins with this text: the first that doesn't stand before it does, where any does.
fn begins_any(names: &BTreeSet<String>, front: &String) -> bool
    ensures { (text : List ℕ) → string_bytes front.now ≡ text ++ 46 ∷ [] → result ≡ holds_in names.now text }
{
    match names.range(front..).next() {
        None => false,
        Some(name) => name
            .as_str()
            .as_bytes()
            .starts_with(front.as_str().as_bytes()),
    }
}

/// Whether the text is the name of a namespace that holds one of the names.
pub(crate) fn is_space(
    alloc: Global,
    names: &BTreeSet<String>,
    text: &str,
) -> Result<bool, AllocError>
    ensures { IfOk result (λ b. b ≡ holds_in names.now text.now) }
{
    let mut front = String::from_str(alloc, text)?;
    front.push_str(".")?;
    Ok(begins_any(names, &front))
}

// How many declarations have places.
fn site_count(types: &PlacedTypes) -> u32
    ensures declared { result ≤ length types.now.types }
    ensures placed { result ≤ length types.now.places }
    ensures count { result ≡ length (sites_of types.now.types types.now.places) }
{
    let declared = types.types.len();
    let placed = types.places.len();
    if placed < declared as usize {
        placed as u32
    } else {
        declared
    }
}

// Whether the two names are of one namespace.
fn same_space(name: &FullName, other: &FullName) -> bool
    ensures { IsTrue result → SameSpaces name.now other.now }
{
    let (space, _) = name.parts();
    let (other_space, _) = other.parts();
    space == other_space
}

// Whether the declaration before it is of its namespace.
fn follows(types: &PlacedTypes, i: u32) -> bool
    requires declared { i < length types.now.types }
    requires placed { i < length types.now.places }
    ensures { IsTrue result → Follows (sites_of types.now.types types.now.places) i }
{
    if i == 0 {
        return false;
    }
    let other = Site::at(types, i - 1);
    let site = Site::at(types, i);
    same_space(site.declaration.name(), other.declaration.name())
}

// A name of the namespace of the declaration more, where the one before it is of another.
fn add_site(
    alloc: Global,
    set: &mut BTreeSet<String>,
    types: &PlacedTypes,
    i: u32,
) -> Result<(), AllocError>
    requires declared { i < length types.now.types }
    requires placed { i < length types.now.places }
    requires before { SpacesTo (sites_of types.now.types types.now.places) i (holds_in set.old) }
    ensures { OnOk result (SpacesTo (sites_of types.now.types types.now.places) (i + 1) (holds_in set.new)) }
{
    if follows(types, i) {
        return Ok(());
    }
    let site = Site::at(types, i);
    add_lower(alloc, set, site.declaration.name().as_str())
}

/// Names of declared types, at least one of each namespace, and the namespace of the found ones.
pub(crate) fn names_of(alloc: Global, types: &PlacedTypes) -> Result<BTreeSet<String>, AllocError>
    ensures { IfOk result (λ set. HasSpaces (all_names (sites_of types.now.types types.now.places)) set) }
{
    let mut set = BTreeSet::new(alloc);
    add_small(alloc, &mut set, FOUNDATION)?;
    for i in 0..site_count(types) {
        add_site(alloc, &mut set, types, i)?;
    }
    Ok(set)
}
