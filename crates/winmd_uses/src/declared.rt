//! Names that the set itself declares.

ghost use Rattle.std.specs.Prelude.{◌≡◌, false, Some, IfNone, IfSome, bytes_eq, map, slice_get};
ghost use Rattle.std.specs.List.{list_any};
ghost use Rattle.wr_base.specs.Declarations.{name_of};
ghost use Rattle.winmd_lines.specs.Names as names;

use std::cmp::Ordering;
use wr_base::{FullName, Types};

/// Names in `System` and in `Windows.Foundation.Metadata` are always those of TypeRefs.
pub fn is_outside(name: &FullName) -> bool
    ensures { result ≡ names.is_outside name.now }
{
    let (space, _) = name.parts();
    space == "System" || space == "Windows.Foundation.Metadata"
}

/// Whether a type of this full name is declared, and stands in a TypeDef.
pub fn is_declared(types: &Types, name: &FullName) -> bool
    ensures { result ≡ names.is_declared (map name_of types.now) name.now }
{
    match types.find(name) {
        Some(_) => !is_outside(name),
        None => false,
    }
}

// The place of the declaration of this full name, which stand in the order of names.
fn place_of(types: &Types, name: &str) -> Option<u32>
    ensures found { IfSome result (λ i. slice_get (map name_of types.now) i ≡ Some name.now) }
    ensures absent { IfNone result (list_any (bytes_eq name.now) (map name_of types.now) ≡ false) }
{
    let mut low = 0;
    let mut high = types.len();
    while low < high {
        let middle = low + (high - low) / 2;
        match types.at(middle).name().as_str().cmp(name) {
            Ordering::Less => low = middle + 1,
            Ordering::Equal => return Some(middle),
            Ordering::Greater => high = middle,
        }
    }
    None
}

/// The same of a text that may be no full name.
pub(crate) fn is_declared_text(types: &Types, name: &str) -> bool
    ensures { result ≡ names.is_declared (map name_of types.now) name.now }
{
    match place_of(types, name) {
        Some(place) => !is_outside(types.at(place).name()),
        None => false,
    }
}
