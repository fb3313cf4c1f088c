//! The members, cases, fields and signatures of a declaration where they stand.

ghost use Rattle.std.specs.Prelude.{◌≡◌, ◌∷◌, ◌++◌, [], IfOk, OnOk};
ghost use Rattle.std.specs.List.{filter_map};
ghost use Rattle.wr_rules.specs.Members.{members_of, cases_of, fields_of, members_at, cases_at, fields_at, signature_in};
ghost use Rattle.wr_rules.specs.MemberRules.{with_spot, signatures_at};
ghost use Rattle.placed_sites.specs.Views.{site_view};

use crate::standing::{Standing, stand_all};
use placed_sites::Site;
use std::alloc::{AllocError, Global};
use wr_base::{Case, Declaration, Field, Member, Signature};

fn members_of(declaration: &Declaration) -> &[Member]
    ensures { result.now ≡ members_of declaration.now }
{
    match declaration {
        Declaration::Interface { members, .. } => members.as_slice(),
        _ => &[],
    }
}

fn cases_of(declaration: &Declaration) -> &[Case]
    ensures { result.now ≡ cases_of declaration.now }
{
    match declaration {
        Declaration::Enum { cases, .. } => cases.as_slice(),
        _ => &[],
    }
}

fn fields_of(declaration: &Declaration) -> &[Field]
    ensures { result.now ≡ fields_of declaration.now }
{
    match declaration {
        Declaration::Struct { fields, .. } => fields.as_slice(),
        _ => &[],
    }
}

/// The members of an interface, each at its place.
pub fn members_at<'a>(
    alloc: Global,
    site: &Site<'a>,
) -> Result<Vec<Standing<'a, Member>>, AllocError>
    ensures { IfOk result (λ list. list.items ≡ members_at (site_view site.now)) }
{
    stand_all(alloc, site, members_of(site.declaration))
}

/// The cases of an enum, each at its place.
pub fn cases_at<'a>(alloc: Global, site: &Site<'a>) -> Result<Vec<Standing<'a, Case>>, AllocError>
    ensures { IfOk result (λ list. list.items ≡ cases_at (site_view site.now)) }
{
    stand_all(alloc, site, cases_of(site.declaration))
}

/// The fields of a struct, each at its place.
pub fn fields_at<'a>(alloc: Global, site: &Site<'a>) -> Result<Vec<Standing<'a, Field>>, AllocError>
    ensures { IfOk result (λ list. list.items ≡ fields_at (site_view site.now)) }
{
    stand_all(alloc, site, fields_of(site.declaration))
}

fn push_signature<'a>(
    list: &mut Vec<Standing<'a, Signature>>,
    member: &Standing<'a, Member>,
) -> Result<(), AllocError>
    ensures { OnOk result (list.new.items ≡ list.old.items ++ filter_map (λ m. with_spot m.spot (signature_in m.part)) (member.now ∷ [])) }
{
    match member.part() {
        Member::Method { sig, .. } => {
            list.push(Standing::new(sig, member.spot()))?;
            Ok(())
        }
        Member::Property { .. } => Ok(()),
        Member::Event { .. } => Ok(()),
    }
}

fn method_signatures<'a>(
    alloc: Global,
    members: &[Standing<'a, Member>],
) -> Result<Vec<Standing<'a, Signature>>, AllocError>
    ensures { IfOk result (λ list. list.items ≡ filter_map (λ m. with_spot m.spot (signature_in m.part)) members.now) }
{
    let mut list = Vec::new(alloc);
    for member in members {
        push_signature(&mut list, member)?;
    }
    Ok(list)
}

fn one_signature<'a>(
    alloc: Global,
    invoke: Standing<'a, Signature>,
) -> Result<Vec<Standing<'a, Signature>>, AllocError>
    ensures { IfOk result (λ list. list.items ≡ invoke.entry ∷ []) }
{
    let mut list = Vec::new(alloc);
    list.push(invoke)?;
    Ok(list)
}

/// The signatures of a delegate or of an interface's methods, each where it stands.
pub fn signatures_at<'a>(
    alloc: Global,
    site: &Site<'a>,
) -> Result<Vec<Standing<'a, Signature>>, AllocError>
    ensures { IfOk result (λ list. list.items ≡ signatures_at (site_view site.now)) }
{
    match site.declaration {
        Declaration::Delegate { invoke, .. } => one_signature(
            alloc,
            Standing::new(invoke, site.spot()),
        ),
        _ => {
            let members = members_at(alloc, site)?;
            method_signatures(alloc, members.as_slice())
        }
    }
}
