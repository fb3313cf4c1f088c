//! Factory methods of a class that take as many parameters as an earlier one.

ghost use Rattle.std.specs.Prelude.{◌≡◌, ◌++◌, ◌∷◌, [], IfOk, OnOk, length, replicate, string_bytes};
ghost use Rattle.std.specs.List.{filter_map};
ghost use Rattle.wr_rules.specs.MemberRules.{with_spot};
ghost use Rattle.wr_rules.specs.Members.{signature_in};

use crate::members::factory_members;
use crate::shape::signature_in;
use placed_sites::{Site, SiteRule, Spot};
use site_parts::{Repeats, Standing, first_repeat};
use std::alloc::{AllocError, Global};
use wr_base::{Code, Member, PlacedTypes, Refusal, Signature};

// A text of so many commas.
fn marks(alloc: Global, count: usize) -> Result<String, AllocError>
    ensures { IfOk result (λ text. string_bytes text ≡ replicate count 44) }
{
    let mut text = String::new(alloc);
    for i in 0..count {
        text.push_str(",")?;
    }
    Ok(text)
}

// How many parameters signatures take, as texts.
struct Counts;

impl<'a> Repeats<Standing<'a, Signature>> for Counts {
    ghost use Rattle.std.specs.Prelude.{length, replicate};

    ghost key = { λ _ it. replicate (length it.part.params) 44 };

    ghost spot = { λ _ it. it.spot };

    fn key(&self, alloc: Global, item: &Standing<'a, Signature>) -> Result<String, AllocError> {
        marks(alloc, item.part().params.as_slice().len())
    }

    fn spot<'s>(&'s self, item: &'s Standing<'a, Signature>) -> Spot<'s> {
        item.spot()
    }
}

fn push_signature<'a>(
    list: &mut Vec<Standing<'a, Signature>>,
    member: &Standing<'a, Member>,
) -> Result<(), AllocError>
    ensures { OnOk result (list.new.items ≡ list.old.items ++ filter_map (λ m. with_spot m.spot (signature_in m.part)) (member.now ∷ [])) }
{
    match signature_in(member.part()) {
        None => Ok(()),
        Some(sig) => {
            list.push(Standing::new(sig, member.spot()))?;
            Ok(())
        }
    }
}

fn signatures<'a>(
    alloc: Global,
    members: &[Standing<'a, Member>],
) -> Result<Vec<Standing<'a, Signature>>, AllocError>
    ensures { IfOk result (λ list. list.items ≡ filter_map (λ m. with_spot m.spot (signature_in m.part)) members.now) }
{
    let mut list = Vec::new(alloc);
    for member in members {
        push_signature(&mut list, member)?;
    }
    Ok(list)
}

/// Refuses a factory method of a class that takes as many parameters as an earlier one of its factories.
#[derive(Clone, Copy, Debug)]
pub struct ConstructorArity<'a> {
    pub types: &'a PlacedTypes,
}

impl<'a> SiteRule for ConstructorArity<'a> {
    ghost use Rattle.wr_rules.specs.Sites.{sites_of};
    ghost use Rattle.wr_rules.specs.FactoryRules.{IsConstructorArity};

    ghost broken = { λ rule. IsConstructorArity (sites_of rule.types.now.types rule.types.now.places) };

    fn first_at(&self, alloc: Global, site: &Site) -> Result<Option<Refusal>, AllocError> {
        let members = factory_members(alloc, self.types, site)?;
        let methods = signatures(alloc, &members)?;
        first_repeat(alloc, &Counts, methods.as_slice(), Code::ConstructorArity)
    }
}
