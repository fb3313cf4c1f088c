//! All declarations of a set of items.

ghost use Rattle.std.specs.Prelude.{◌≡◌, ◌++◌, IfOk, OnOk};
ghost use Rattle.closed_lists.specs.Views.{site_view, sites_in};
ghost use Rattle.made_interfaces.specs.Made.{id_or_named, with_id, class_sites, item_sites, raw};

use crate::class::class_site;
use crate::interfaces::push_made;
use closed_lists::PlacedDeclaration;
use pinterface_id::named_id;
use placed_items::{Placed, PlacedItem, Written, WrittenClass};
use std::alloc::{AllocError, Global};
use wr_base::{DeclPlaces, Declaration, FullName};

// The id that is written, or that of the name.
fn id_or_named(id: Option<u128>, name: &FullName) -> u128
    ensures { result ≡ id_or_named id name.now }
{
    match id {
        Some(id) => id,
        None => named_id(name),
    }
}

fn set_id(declaration: &mut Declaration, written: Option<u128>)
    ensures { declaration.new ≡ with_id written declaration.old }
{
    match declaration {
        Declaration::Delegate { name, id, .. } => *id = id_or_named(written, name),
        Declaration::Interface { name, id, .. } => *id = id_or_named(written, name),
        Declaration::Enum { .. } => {}
        Declaration::Struct { .. } => {}
        Declaration::Class { .. } => {}
    }
}

// With the id of its name where none is written.
fn with_id(written: Option<u128>, declaration: Declaration) -> Declaration
    ensures { result ≡ with_id written declaration }
{
    let mut declaration = declaration;
    set_id(&mut declaration, written);
    declaration
}

// A declaration that isn't a class, where it stands.
fn done_site(id: Option<u128>, declaration: Declaration, places: DeclPlaces) -> PlacedDeclaration
    ensures { site_view result ≡ record { decl = with_id id declaration; places = places } }
{
    PlacedDeclaration {
        declaration: with_id(id, declaration),
        places,
    }
}

fn push_class(
    alloc: Global,
    sites: &mut Vec<PlacedDeclaration>,
    class: &WrittenClass,
    places: &DeclPlaces,
) -> Result<(), AllocError>
    ensures { OnOk result (sites_in sites.new.items ≡ sites_in sites.old.items ++ class_sites class.now places.now) }
{
    sites.push(class_site(alloc, class, places)?)?;
    push_made(alloc, sites, class, places)
}

fn push_item(
    alloc: Global,
    sites: &mut Vec<PlacedDeclaration>,
    item: PlacedItem,
) -> Result<(), AllocError>
    ensures { OnOk result (sites_in sites.new.items ≡ sites_in sites.old.items ++ item_sites item) }
{
    let PlacedItem { item, id, places } = item;
    match item {
        Written::Done(declaration) => {
            sites.push(done_site(id, declaration, places))?;
            Ok(())
        }
        Written::Class(class) => push_class(alloc, sites, &class, &places),
    }
}

/// The declarations of the items in their order, behind each class the interfaces that are made of it: its own, that of its statics, and its factory. Lists are as they are written, and no declaration is copied.
pub fn raw(alloc: Global, items: Placed) -> Result<Vec<PlacedDeclaration>, AllocError>
    ensures { IfOk result (λ sites. sites_in sites.items ≡ raw items) }
{
    let mut sites = Vec::new(alloc);
    for item in items.into_vec() {
        push_item(alloc, &mut sites, item)?;
    }
    Ok(sites)
}
