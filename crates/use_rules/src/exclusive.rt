//! Classes without default, delegates that give something back, and interfaces that have an owner.

ghost use Rattle.std.specs.Prelude.{◌≡◌, ◌||◌, [], option_map};
ghost use Rattle.std.specs.List.{list_any};
ghost use Rattle.std.specs.Option.{option_copied, is_some, is_none};
ghost use Rattle.wr_base.specs.declared.declaration.Param.{Param as ParamRecord};
ghost use Rattle.wr_rules.specs.UseRules.{lacks_default, gives_back, is_class_here};
ghost use Rattle.pinterface_id.specs.Views.{meaning_view};
ghost use Rattle.use_rules.specs.Owners.{owner_in};

use pinterface_id::Meaning;
use wr_base::{Declaration, FullName, Param, Signature, TypeUse};

fn lacks(default: &Option<TypeUse>) -> bool
    ensures { result ≡ is_none default.now }
{
    default.is_none()
}

/// Whether it is a class without default.
pub(crate) fn lacks_default(meaning: &Option<Meaning>) -> bool
    ensures { result ≡ lacks_default [] (option_map meaning_view meaning.now) }
{
    match meaning {
        Some(Meaning::Declared(_, Declaration::Class { default, .. })) => lacks(default),
        _ => false,
    }
}

fn any_out(params: &[Param]) -> bool
    ensures { result ≡ list_any (λ (p : ParamRecord). p.out) params.now }
{
    params.iter().any(|p| p.out)
}

fn signature_gives_back(invoke: &Signature) -> bool
    ensures { result ≡ (is_some invoke.now.result || list_any (λ (p : ParamRecord). p.out) invoke.now.params) }
{
    invoke.result.is_some() || any_out(invoke.params.as_slice())
}

/// Whether it is a delegate whose `Invoke` returns a value or has an out parameter.
pub(crate) fn gives_back(meaning: &Option<Meaning>) -> bool
    ensures { result ≡ gives_back [] (option_map meaning_view meaning.now) }
{
    match meaning {
        Some(Meaning::Declared(_, Declaration::Delegate { invoke, .. })) => signature_gives_back(
            invoke,
        ),
        _ => false,
    }
}

fn lent(owner: &Option<FullName>) -> Option<&FullName>
    ensures { option_copied result ≡ owner.now }
{
    match owner {
        None => None,
        Some(name) => Some(name),
    }
}

/// The owner of an interface that has one.
pub(crate) fn owner_of<'a>(meaning: Option<Meaning<'a>>) -> Option<&'a FullName>
    ensures { option_copied result ≡ owner_in (option_map meaning_view meaning.entry) }
{
    match meaning {
        Some(Meaning::Declared(_, Declaration::Interface { owner, .. })) => lent(owner),
        _ => None,
    }
}

/// Whether this declaration is the class of this name.
pub(crate) fn is_class_here(declaration: &Declaration, owner: &FullName) -> bool
    ensures { result ≡ is_class_here [] declaration.now owner.now }
{
    match declaration {
        Declaration::Class { name, .. } => *name == *owner,
        _ => false,
    }
}
