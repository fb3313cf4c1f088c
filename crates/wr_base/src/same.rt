//! Tests whether two values are one.

ghost use Rattle.std.specs.Prelude.{◌≡◌, ◌↔◌, IsTrue};

use crate::{
    Case, DeclPlaces, Field, FullName, Listed, Name, Param, Place, PlacedTypes, Signature, TypeUse,
    UseId,
};
use sqlite_items::Items;

/// A test that holds exactly of one value and itself.
pub trait Same {
    /// Whether the two are one value.
    fn same(&self, other: &Self) -> bool
        ensures { IsTrue result ↔ (self.now ≡ other.now) };
}

/// Whether two lists have the same elements in the same order.
pub fn same_lists<T: Same>(left: &[T], right: &[T]) -> bool
    ensures { IsTrue result ↔ (left.now ≡ right.now) }
{
    if left.len() != right.len() {
        return false;
    }
    for i in 0..left.len() {
        if !left[i].same(&right[i]) {
            return false;
        }
    }
    true
}

impl Same for Name {
    fn same(&self, other: &Name) -> bool {
        *self == *other
    }
}

impl Same for FullName {
    fn same(&self, other: &FullName) -> bool {
        *self == *other
    }
}

impl Same for TypeUse {
    fn same(&self, other: &TypeUse) -> bool {
        self.is_same(other)
    }
}

impl<T: Same> Same for Listed<T> {
    fn same(&self, other: &Listed<T>) -> bool {
        same_lists(self.as_slice(), other.as_slice())
    }
}

impl<T: Same> Same for Items<T> {
    fn same(&self, other: &Items<T>) -> bool {
        same_lists(self.as_slice(), other.as_slice())
    }
}

impl<T: Same> Same for Option<T> {
    fn same(&self, other: &Option<T>) -> bool {
        match (self, other) {
            (None, None) => true,
            (Some(a), Some(b)) => a.same(b),
            _ => false,
        }
    }
}

impl Same for Param {
    fn same(&self, other: &Param) -> bool {
        self.name.same(&other.name) && self.out == other.out && self.ty.same(&other.ty)
    }
}

impl Same for Signature {
    fn same(&self, other: &Signature) -> bool {
        self.params.same(&other.params) && self.result.same(&other.result)
    }
}

impl Same for Case {
    fn same(&self, other: &Case) -> bool {
        self.name.same(&other.name) && self.value == other.value
    }
}

impl Same for Field {
    fn same(&self, other: &Field) -> bool {
        self.name.same(&other.name) && self.ty.same(&other.ty)
    }
}

impl Same for Place {
    fn same(&self, other: &Place) -> bool {
        self.file == other.file && self.offset == other.offset
    }
}

impl Same for DeclPlaces {
    fn same(&self, other: &DeclPlaces) -> bool {
        self.at.same(&other.at) && self.parts.same(&other.parts)
    }
}

impl Same for UseId {
    fn same(&self, other: &UseId) -> bool {
        self.text.same(&other.text) && self.id == other.id
    }
}

impl Same for PlacedTypes {
    fn same(&self, other: &PlacedTypes) -> bool {
        self.types.same(&other.types) && self.places.same(&other.places)
    }
}
