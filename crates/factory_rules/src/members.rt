//! The members of a class's declared factories, each where it stands.

ghost use Rattle.std.specs.Prelude.{◌≡◌, ◌++◌, ◌<◌, IfOk, OnOk, length, slice_get};
ghost use Rattle.std.specs.Option.{option_map, option_and_then};
ghost use Rattle.wr_rules.specs.Sites.{sites_of};
ghost use Rattle.wr_rules.specs.FactoryRules.{factories_of, site_as, members_in, members_named, factory_members};
ghost use Rattle.placed_sites.specs.Views.{site_view};

use placed_sites::Site;
use site_parts::{Standing, members_at};
use std::alloc::{AllocError, Global};
use wr_base::{Declaration, FullName, Member, PlacedTypes};

#[tactic(auto, using(crate::proofs::SiteLaws::past_places))]
fn site_at<'a>(types: &'a PlacedTypes, number: u32) -> Option<Site<'a>>
    requires { number < length types.now.types }
    ensures { option_map site_view result ≡ slice_get (sites_of types.now.types types.now.places) number }
{
    if (number as usize) >= types.places.len() {
        return None;
    }
    Some(Site::at(types, number))
}

// The declaration of a full name, where it stands.
#[tactic(auto, using(crate::proofs::SiteLaws::found_site, crate::proofs::SiteLaws::no_site))]
fn site_of<'a>(types: &'a PlacedTypes, name: &FullName) -> Option<Site<'a>>
    ensures { option_map site_view result ≡ site_as (sites_of types.now.types types.now.places) name.now }
{
    match types.types.find(name) {
        None => None,
        Some(number) => site_at(types, number),
    }
}

fn members_of<'a>(
    alloc: Global,
    site: &Option<Site<'a>>,
) -> Result<Vec<Standing<'a, Member>>, AllocError>
    ensures { IfOk result (λ list. list.items ≡ members_in (option_map site_view site.now)) }
{
    match site {
        None => Ok(Vec::new(alloc)),
        Some(site) => members_at(alloc, site),
    }
}

fn members_named<'a>(
    alloc: Global,
    types: &'a PlacedTypes,
    name: &FullName,
) -> Result<Vec<Standing<'a, Member>>, AllocError>
    ensures { IfOk result (λ list. list.items ≡ members_named (sites_of types.now.types types.now.places) name.now) }
{
    members_of(alloc, &site_of(types, name))
}

fn push_all<'a>(
    list: &mut Vec<Standing<'a, Member>>,
    more: &[Standing<'a, Member>],
) -> Result<(), AllocError>
    ensures { OnOk result (list.new.items ≡ list.old.items ++ more.now) }
{
    for one in more {
        list.push(Standing::new(one.part(), one.spot()))?;
    }
    Ok(())
}

fn push_named<'a>(
    alloc: Global,
    types: &'a PlacedTypes,
    list: &mut Vec<Standing<'a, Member>>,
    name: &FullName,
) -> Result<(), AllocError>
    ensures { OnOk result (list.new.items ≡ list.old.items ++ members_named (sites_of types.now.types types.now.places) name.now) }
{
    let more = members_named(alloc, types, name)?;
    push_all(list, more.as_slice())
}

/// The factories of a class, by name.
pub(crate) fn factories_of(declaration: &Declaration) -> &[FullName]
    ensures { result.now ≡ factories_of declaration.now }
{
    match declaration {
        Declaration::Class { factories, .. } => factories.as_slice(),
        _ => &[],
    }
}

/// The members of a class's declared factories, factory by factory.
pub(crate) fn factory_members<'a>(
    alloc: Global,
    types: &'a PlacedTypes,
    site: &Site,
) -> Result<Vec<Standing<'a, Member>>, AllocError>
    ensures { IfOk result (λ list. list.items ≡ factory_members (sites_of types.now.types types.now.places) (site_view site.now)) }
{
    let mut list = Vec::new(alloc);
    for name in factories_of(site.declaration) {
        push_named(alloc, types, &mut list, name)?;
    }
    Ok(list)
}
