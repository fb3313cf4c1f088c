//! Which interfaces a class gets.

ghost use Rattle.std.specs.Prelude.{◌≡◌};
ghost use Rattle.std.specs.List.{list_any};
ghost use Rattle.wr_rules.specs.ListRules.{is_empty};
ghost use Rattle.made_interfaces.specs.Made.{is_bare, makes_default, makes_statics, takes_some, makes_factory, is_direct};

use placed_items::WrittenClass;
use wr_base::Signature;

fn is_empty<T>(list: &[T]) -> bool
    ensures { result ≡ is_empty list.now }
{
    match list {
        [] => true,
        [_, ..] => false,
    }
}

/// Whether a constructor has parameters.
pub(crate) fn takes_some(constructor: &Signature) -> bool
    ensures { result ≡ takes_some constructor.now }
{
    !is_empty(constructor.params.as_slice())
}

fn takes_none(constructor: &Signature) -> bool
    ensures { result ≡ is_empty constructor.now.params }
{
    is_empty(constructor.params.as_slice())
}

// It lists no interface, and has a constructor or no statics.
fn is_bare(class: &WrittenClass) -> bool
    ensures { result ≡ is_bare class.now }
{
    let constructed = !is_empty(class.constructors.as_slice());
    let plain = is_empty(class.statics.as_slice());
    is_empty(class.listed.as_slice()) && (constructed || plain)
}

/// Whether an interface is made of its members: where there are any, where `[default_interface]` stands, or where nothing else would be its default.
pub(crate) fn makes_default(class: &WrittenClass) -> bool
    ensures { result ≡ makes_default class.now }
{
    let wanted = class.marked || is_bare(class);
    !is_empty(class.members.as_slice()) || (!class.fixed && wanted)
}

/// Whether an interface is made of its static members.
pub(crate) fn makes_statics(class: &WrittenClass) -> bool
    ensures { result ≡ makes_statics class.now }
{
    !is_empty(class.statics.as_slice())
}

/// Whether an interface is made of its constructors with parameters.
pub(crate) fn makes_factory(class: &WrittenClass) -> bool
    ensures { result ≡ makes_factory class.now }
{
    class.constructors.as_slice().iter().any(|s| takes_some(s))
}

/// Whether it has a constructor without parameters.
pub(crate) fn is_direct(class: &WrittenClass) -> bool
    ensures { result ≡ is_direct class.now }
{
    class.constructors.as_slice().iter().any(|s| takes_none(s))
}
