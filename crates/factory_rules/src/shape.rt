//! Factory members that don't make the class.

ghost use Rattle.std.specs.Prelude.{◌≡◌, ◌&&◌, not, IfOk};
ghost use Rattle.std.specs.List.{list_any};
ghost use Rattle.std.specs.Option.{option_copied, option_map};
ghost use Rattle.wr_rules.specs.Kinds.{named};
ghost use Rattle.wr_rules.specs.Members.{signature_in};
ghost use Rattle.wr_rules.specs.FactoryRules.{is_found_interface, makes, returns};
ghost use Rattle.wr_rules.specs.ListRules.{is_empty};
ghost use Rattle.pinterface_id.specs.Views.{meaning_view};

use crate::members::{factories_of, factory_members};
use found_table::Found;
use pinterface_id::{Meaning, named};
use placed_sites::{Site, SiteRule, Spot, refuse_if};
use ranked::earlier;
use site_parts::{ItemRule, Standing, first_among};
use std::alloc::{AllocError, Global};
use wr_base::{Code, FullName, Member, Param, PlacedTypes, Refusal, Signature, TypeUse, Types};

/// The signature of a method.
pub(crate) fn signature_in(member: &Member) -> Option<&Signature>
    ensures { option_copied result ≡ signature_in member.now }
{
    match member {
        Member::Method { sig, .. } => Some(sig),
        Member::Property { .. } => None,
        Member::Event { .. } => None,
    }
}

fn has_out(params: &[Param]) -> bool
    ensures { result ≡ list_any (λ p. p.out) params.now }
{
    params.iter().any(|p| p.out)
}

fn returns(alloc: Global, class: &FullName, outcome: &Option<TypeUse>) -> Result<bool, AllocError>
    ensures { IfOk result (λ so. so ≡ returns class.now outcome.now) }
{
    match outcome {
        None => Ok(false),
        Some(ty) => {
            let text = ty.text(alloc)?;
            Ok(text.as_str() == class.as_str())
        }
    }
}

fn takes_in(signature: &Signature) -> bool
    ensures { result ≡ (not (is_empty signature.now.params) && not (list_any (λ p. p.out) signature.now.params)) }
{
    let params = signature.params.as_slice();
    !params.is_empty() && !has_out(params)
}

// Whether a method takes parameters, none of them out, and answers the class of this name.
fn makes(alloc: Global, class: &FullName, signature: Option<&Signature>) -> Result<bool, AllocError>
    ensures { IfOk result (λ so. so ≡ makes class.now (option_copied signature.entry)) }
{
    match signature {
        None => Ok(false),
        Some(signature) => {
            let is_made = returns(alloc, class, &signature.result)?;
            Ok(takes_in(signature) && is_made)
        }
    }
}

// Refuses a member that isn't a method that makes the class.
#[derive(Drop)]
struct MemberShape<'a> {
    class: &'a FullName,
}

impl<'a, 'b> ItemRule<Standing<'b, Member>> for MemberShape<'a> {
    ghost use Rattle.std.specs.Prelude.{not};
    ghost use Rattle.wr_base.specs.declared.code.Code.TheVariants.{FactoryShape as shape};
    ghost use Rattle.wr_rules.specs.Sites.{If};
    ghost use Rattle.wr_rules.specs.Members.{signature_in};
    ghost use Rattle.wr_rules.specs.FactoryRules.{makes};

    ghost broken = { λ rule m. If (not (makes rule.class.now (signature_in m.part))) shape m.spot };

    fn first_at(
        &self,
        alloc: Global,
        item: &Standing<'b, Member>,
    ) -> Result<Option<Refusal>, AllocError> {
        let fine = makes(alloc, self.class, signature_in(item.part()))?;
        refuse_if(alloc, &item.spot(), !fine, Code::FactoryShape)
    }
}

fn is_found_interface(meaning: &Option<Meaning>) -> bool
    ensures { result ≡ is_found_interface (option_map meaning_view meaning.now) }
{
    match meaning {
        Some(Meaning::Found(Found::Interface { .. })) => true,
        _ => false,
    }
}

// Refuses the name of a found interface, at the class.
#[derive(Drop)]
struct FoundFactory<'a> {
    types: &'a Types,
    spot: Spot<'a>,
}

impl<'a> ItemRule<FullName> for FoundFactory<'a> {
    ghost use Rattle.wr_base.specs.declared.code.Code.TheVariants.{FactoryShape as shape};
    ghost use Rattle.wr_rules.specs.Kinds.{named};
    ghost use Rattle.wr_rules.specs.Sites.{If};
    ghost use Rattle.wr_rules.specs.FactoryRules.{is_found_interface};
    ghost use Rattle.placed_sites.specs.Views.{spot_view};

    ghost broken = { λ rule name. If (is_found_interface (named rule.types.now name 0)) shape (spot_view rule.spot) };

    fn first_at(&self, alloc: Global, item: &FullName) -> Result<Option<Refusal>, AllocError> {
        let found = is_found_interface(&named(self.types, item, 0));
        refuse_if(alloc, &self.spot, found, Code::FactoryShape)
    }
}

/// Refuses a member of a factory that isn't a method with parameters, none of them out, that answers the class; and at the class a found interface as its factory.
#[derive(Clone, Copy, Debug)]
pub struct FactoryShape<'a> {
    pub types: &'a PlacedTypes,
}

impl<'a> SiteRule for FactoryShape<'a> {
    ghost use Rattle.wr_rules.specs.Sites.{sites_of};
    ghost use Rattle.wr_rules.specs.FactoryRules.{IsFactoryShape};

    ghost broken = { λ rule. IsFactoryShape rule.types.now.types (sites_of rule.types.now.types rule.types.now.places) };

    fn first_at(&self, alloc: Global, site: &Site) -> Result<Option<Refusal>, AllocError> {
        let members = factory_members(alloc, self.types, site)?;
        let rule = MemberShape {
            class: site.declaration.name(),
        };
        let first = first_among(alloc, &rule, members.as_slice())?;
        let found = FoundFactory {
            types: &self.types.types,
            spot: site.spot(),
        };
        let second = first_among(alloc, &found, factories_of(site.declaration))?;
        Ok(earlier(first, second))
    }
}
