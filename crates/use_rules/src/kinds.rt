//! The kind of what a use names.

ghost use Rattle.std.specs.Prelude.{◌≡◌, option_map};
ghost use Rattle.wr_rules.specs.Kinds.{kind_of, used, kind_used};
ghost use Rattle.wr_rules.specs.UseRules.{has_kind, is_value, is_delegate, is_interface, is_referred};
ghost use Rattle.pinterface_id.specs.Views.{meaning_view};
ghost use Rattle.site_uses.specs.Views.{shape_view};

use crate::types_used::used;
use found_table::Found;
use pinterface_id::Meaning;
use site_uses::Shape;
use wr_base::{Declaration, Types};

fn is_value(meaning: &Meaning) -> bool
    ensures { result ≡ is_value (kind_of (meaning_view meaning.now)) }
{
    match meaning {
        Meaning::Declared(_, Declaration::Enum { .. }) => true,
        Meaning::Declared(_, Declaration::Struct { .. }) => true,
        Meaning::Declared(_, _) => false,
        Meaning::Found(Found::Struct { .. }) => true,
        Meaning::Found(_) => false,
    }
}

fn is_delegate(meaning: &Meaning) -> bool
    ensures { result ≡ is_delegate (kind_of (meaning_view meaning.now)) }
{
    match meaning {
        Meaning::Declared(_, Declaration::Delegate { .. }) => true,
        Meaning::Declared(_, _) => false,
        Meaning::Found(Found::Delegate { .. }) => true,
        Meaning::Found(_) => false,
    }
}

fn is_interface(meaning: &Meaning) -> bool
    ensures { result ≡ is_interface (kind_of (meaning_view meaning.now)) }
{
    match meaning {
        Meaning::Declared(_, Declaration::Interface { .. }) => true,
        Meaning::Declared(_, _) => false,
        Meaning::Found(Found::Interface { .. }) => true,
        Meaning::Found(_) => false,
    }
}

/// Whether it names an enum or a struct.
pub(crate) fn names_value(types: &Types, shape: &Shape) -> bool
    ensures { result ≡ has_kind is_value (kind_used types.now (shape_view shape.now)) }
{
    match used(types, shape) {
        None => false,
        Some(meaning) => is_value(&meaning),
    }
}

/// Whether it names a delegate, an interface or a class.
pub(crate) fn names_referred(types: &Types, shape: &Shape) -> bool
    ensures { result ≡ has_kind is_referred (kind_used types.now (shape_view shape.now)) }
{
    match used(types, shape) {
        None => false,
        Some(meaning) => !is_value(&meaning),
    }
}

/// Whether it names a delegate.
pub(crate) fn names_delegate(types: &Types, shape: &Shape) -> bool
    ensures { result ≡ has_kind is_delegate (kind_used types.now (shape_view shape.now)) }
{
    match used(types, shape) {
        None => false,
        Some(meaning) => is_delegate(&meaning),
    }
}

/// Whether it names an interface.
pub(crate) fn names_interface(types: &Types, shape: &Shape) -> bool
    ensures { result ≡ has_kind is_interface (kind_used types.now (shape_view shape.now)) }
{
    match used(types, shape) {
        None => false,
        Some(meaning) => is_interface(&meaning),
    }
}
