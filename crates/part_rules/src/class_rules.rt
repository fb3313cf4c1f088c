//! Classes whose default is missing, and classes of static members alone that have more.

ghost use Rattle.std.specs.Prelude.{◌≡◌, ◌||◌, not, [], IfOk};
ghost use Rattle.std.specs.Str.{bytes_eq};
ghost use Rattle.wr_base.specs.Uses.{text_of};
ghost use Rattle.wr_rules.specs.Closures.{lists};
ghost use Rattle.wr_rules.specs.ListRules.{default_fails, fixed_with, misses_default};

use placed_sites::{Site, SiteRule, refuse_if};
use std::alloc::{AllocError, Global};
use wr_base::{Code, Declaration, Refusal, TypeUse};

fn either(a: bool, b: bool) -> bool
    ensures { result ≡ (a || b) }
{
    a || b
}

fn has_text(alloc: Global, ty: &TypeUse, text: &str) -> Result<bool, AllocError>
    ensures { IfOk result (λ same. same ≡ bytes_eq (text_of ty.now) text.now) }
{
    let own = ty.text(alloc)?;
    Ok(own.as_str() == text)
}

// Whether one of the uses has this text.
fn lists(alloc: Global, uses: &[TypeUse], text: &str) -> Result<bool, AllocError>
    ensures { IfOk result (λ found. found ≡ lists uses.now text.now) }
{
    let mut found = false;
    for ty in uses {
        found = either(found, has_text(alloc, ty, text)?);
    }
    Ok(found)
}

fn default_fails(
    alloc: Global,
    default: &Option<TypeUse>,
    has: &[TypeUse],
    makes: bool,
) -> Result<bool, AllocError>
    ensures { IfOk result (λ fails. fails ≡ default_fails [] default.now has.now makes) }
{
    match default {
        None => Ok(makes),
        Some(ty) => {
            let text = ty.text(alloc)?;
            Ok(!lists(alloc, has, text.as_str())?)
        }
    }
}

fn misses_default(alloc: Global, declaration: &Declaration) -> Result<bool, AllocError>
    ensures { IfOk result (λ misses. misses ≡ misses_default [] declaration.now) }
{
    match declaration {
        Declaration::Class {
            default,
            has,
            direct,
            factories,
            ..
        } => default_fails(
            alloc,
            default,
            has.as_slice(),
            either(*direct, !factories.as_slice().is_empty()),
        ),
        _ => Ok(false),
    }
}

fn has_more(direct: bool, lacks_factories: bool, lacks_interfaces: bool) -> bool
    ensures { result ≡ (direct || not lacks_factories || not lacks_interfaces) }
{
    direct || !lacks_factories || !lacks_interfaces
}

fn fixed_with(declaration: &Declaration) -> bool
    ensures { result ≡ fixed_with [] declaration.now }
{
    match declaration {
        Declaration::Class {
            fixed,
            has,
            direct,
            factories,
            ..
        } => {
            *fixed
                && has_more(
                    *direct,
                    factories.as_slice().is_empty(),
                    has.as_slice().is_empty(),
                )
        }
        _ => false,
    }
}

/// Refuses a class that can be made and has no default, and one whose default isn't among its interfaces.
#[derive(Clone, Copy, Debug)]
pub struct DefaultMissing;

impl SiteRule for DefaultMissing {
    ghost use Rattle.std.specs.Prelude.{[]};
    ghost use Rattle.wr_rules.specs.ListRules.{IsDefaultMissing};

    ghost broken = { λ _ site. IsDefaultMissing [] site };

    fn first_at(&self, alloc: Global, site: &Site) -> Result<Option<Refusal>, AllocError> {
        let broken = misses_default(alloc, site.declaration)?;
        refuse_if(alloc, &site.spot(), broken, Code::DefaultMissing)
    }
}

/// Refuses a class of static members alone that is direct, or has factories or interfaces.
#[derive(Clone, Copy, Debug)]
pub struct StaticMembers;

impl SiteRule for StaticMembers {
    ghost use Rattle.std.specs.Prelude.{[]};
    ghost use Rattle.wr_rules.specs.ListRules.{IsStaticMembers};

    ghost broken = { λ _ site. IsStaticMembers [] site };

    fn first_at(&self, alloc: Global, site: &Site) -> Result<Option<Refusal>, AllocError> {
        refuse_if(
            alloc,
            &site.spot(),
            fixed_with(site.declaration),
            Code::StaticMembers,
        )
    }
}
