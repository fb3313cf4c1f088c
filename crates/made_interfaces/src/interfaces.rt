//! The interfaces that are made of a class, where they stand.

ghost use Rattle.std.specs.Prelude.{◌≡◌, ◌++◌, [], IfOk, OnOk, codes};
ghost use Rattle.closed_lists.specs.Views.{site_view, sites_in};
ghost use Rattle.made_interfaces.specs.Made.{interface_of, made_name, placed_at, where_, makes_default, makes_statics, makes_factory, default_site, statics_site, factory_site, made_sites};

use crate::factory::factory_methods;
use crate::names::{default_name, factory_name, statics_name};
use crate::parts::{of_factory, of_members, of_statics, placed_at};
use crate::wants::{makes_default, makes_factory, makes_statics};
use closed_lists::PlacedDeclaration;
use pinterface_id::named_id;
use placed_items::WrittenClass;
use sqlite_items::Items;
use std::alloc::{AllocError, Global};
use wr_base::{DeclPlaces, Declaration, FullName, Members, Place};

// An interface of this name for the class alone.
fn interface_of(
    alloc: Global,
    class: &WrittenClass,
    name: FullName,
    members: Members,
) -> Result<Declaration, AllocError>
    ensures { IfOk result (λ made. made ≡ interface_of class.now name members) }
{
    let owner = class.name.clone()?;
    Ok(Declaration::Interface {
        version: class.version,
        id: named_id(&name),
        owner: Some(owner),
        requires_: Items::new(alloc),
        members,
        name,
    })
}

// The same where it stands.
fn site_of(
    alloc: Global,
    class: &WrittenClass,
    name: FullName,
    members: Members,
    at: Place,
    parts: &[Place],
) -> Result<PlacedDeclaration, AllocError>
    ensures { IfOk result (λ site. site_view site ≡ record { decl = interface_of class.now name members; places = placed_at at parts.now }) }
{
    let places = placed_at(alloc, at, parts)?;
    let declaration = interface_of(alloc, class, name, members)?;
    Ok(PlacedDeclaration {
        declaration,
        places,
    })
}

fn default_site(
    alloc: Global,
    class: &WrittenClass,
    places: &DeclPlaces,
) -> Result<PlacedDeclaration, AllocError>
    ensures { IfOk result (λ site. site_view site ≡ default_site class.now places.now) }
{
    let name = default_name(alloc, &class.name)?;
    let members = class.members.clone()?;
    let parts = of_members(class, places.parts.as_slice());
    site_of(alloc, class, name, members, places.at, parts)
}

fn statics_site(
    alloc: Global,
    class: &WrittenClass,
    places: &DeclPlaces,
) -> Result<PlacedDeclaration, AllocError>
    ensures { IfOk result (λ site. site_view site ≡ statics_site class.now places.now) }
{
    let name = statics_name(alloc, &class.name)?;
    let members = class.statics.clone()?;
    let parts = of_statics(class, places.parts.as_slice());
    site_of(alloc, class, name, members, places.at, parts)
}

fn factory_site(
    alloc: Global,
    class: &WrittenClass,
    places: &DeclPlaces,
) -> Result<PlacedDeclaration, AllocError>
    ensures { IfOk result (λ site. site_view site ≡ factory_site class.now places.now) }
{
    let parts = of_factory(alloc, class, places.parts.as_slice())?;
    let name = factory_name(alloc, &class.name)?;
    let members = factory_methods(alloc, &class.name, class.constructors.as_slice())?;
    site_of(alloc, class, name, members, places.at, parts.as_slice())
}

fn push_default(
    alloc: Global,
    sites: &mut Vec<PlacedDeclaration>,
    class: &WrittenClass,
    places: &DeclPlaces,
) -> Result<(), AllocError>
    ensures { OnOk result (sites_in sites.new.items ≡ sites_in sites.old.items ++ where_ (makes_default class.now) (default_site class.now places.now)) }
{
    if makes_default(class) {
        sites.push(default_site(alloc, class, places)?)?;
    }
    Ok(())
}

fn push_statics(
    alloc: Global,
    sites: &mut Vec<PlacedDeclaration>,
    class: &WrittenClass,
    places: &DeclPlaces,
) -> Result<(), AllocError>
    ensures { OnOk result (sites_in sites.new.items ≡ sites_in sites.old.items ++ where_ (makes_statics class.now) (statics_site class.now places.now)) }
{
    if makes_statics(class) {
        sites.push(statics_site(alloc, class, places)?)?;
    }
    Ok(())
}

fn push_factory(
    alloc: Global,
    sites: &mut Vec<PlacedDeclaration>,
    class: &WrittenClass,
    places: &DeclPlaces,
) -> Result<(), AllocError>
    ensures { OnOk result (sites_in sites.new.items ≡ sites_in sites.old.items ++ where_ (makes_factory class.now) (factory_site class.now places.now)) }
{
    if makes_factory(class) {
        sites.push(factory_site(alloc, class, places)?)?;
    }
    Ok(())
}

/// Puts the interfaces that are made of a class behind what is there.
pub(crate) fn push_made(
    alloc: Global,
    sites: &mut Vec<PlacedDeclaration>,
    class: &WrittenClass,
    places: &DeclPlaces,
) -> Result<(), AllocError>
    ensures { OnOk result (sites_in sites.new.items ≡ sites_in sites.old.items ++ made_sites class.now places.now) }
{
    push_default(alloc, sites, class, places)?;
    push_statics(alloc, sites, class, places)?;
    push_factory(alloc, sites, class, places)
}
