//! A class with its lists.

ghost use Rattle.std.specs.Prelude.{◌≡◌, ◌++◌, [], IfOk, OnOk};
ghost use Rattle.closed_lists.specs.Views.{site_view};
ghost use Rattle.made_interfaces.specs.Made.{own_interface, listed_by, first_use, factories_of, statics_of, class_with, class_itself, class_site};

use crate::names::{default_name, push_factory_name, push_statics_name};
use crate::wants::{is_direct, makes_default};
use closed_lists::PlacedDeclaration;
use placed_items::WrittenClass;
use sqlite_items::Items;
use std::alloc::{AllocError, Global};
use wr_base::{DeclPlaces, Declaration, FullName, FullNames, Listed, TypeUse, Uses};

// A use of its own interface, if it has one.
fn own_interface(alloc: Global, class: &WrittenClass) -> Result<Uses, AllocError>
    ensures { IfOk result (λ uses. uses ≡ own_interface class.now) }
{
    let mut uses = Items::new(alloc);
    if makes_default(class) {
        let name = default_name(alloc, &class.name)?;
        uses.push(TypeUse::Reference(name))?;
    }
    Ok(uses)
}

fn push_uses(into: &mut Uses, uses: &[TypeUse]) -> Result<(), AllocError>
    ensures { OnOk result (into.new ≡ into.old ++ uses.now) }
{
    for one in uses {
        into.push(one.clone()?)?;
    }
    Ok(())
}

// What the class lists, its own interface first.
fn listed_by(alloc: Global, class: &WrittenClass) -> Result<Uses, AllocError>
    ensures { IfOk result (λ uses. uses ≡ listed_by class.now) }
{
    let mut uses = own_interface(alloc, class)?;
    push_uses(&mut uses, class.listed.as_slice())?;
    Ok(uses)
}

fn first_use(uses: &[TypeUse]) -> Result<Option<TypeUse>, AllocError>
    ensures { IfOk result (λ one. one ≡ first_use uses.now) }
{
    match uses {
        [] => Ok(None),
        [one, ..] => Ok(Some(one.clone()?)),
    }
}

fn factories_of(alloc: Global, class: &WrittenClass) -> Result<FullNames, AllocError>
    ensures { IfOk result (λ names. names ≡ factories_of class.now) }
{
    let mut names = Vec::new(alloc);
    push_factory_name(alloc, &mut names, class)?;
    Ok(Listed::from_vec(names))
}

fn statics_of(alloc: Global, class: &WrittenClass) -> Result<FullNames, AllocError>
    ensures { IfOk result (λ names. names ≡ statics_of class.now) }
{
    let mut names = Vec::new(alloc);
    push_statics_name(alloc, &mut names, class)?;
    Ok(Listed::from_vec(names))
}

// The class with these lists, whose default is the first of `has`.
fn class_with(
    class: &WrittenClass,
    has: Uses,
    factories: FullNames,
    statics: FullNames,
) -> Result<Declaration, AllocError>
    ensures { IfOk result (λ done. done ≡ class_with class.now has factories statics) }
{
    let name = class.name.clone()?;
    let default = first_use(has.as_slice())?;
    Ok(Declaration::Class {
        name,
        version: class.version,
        fixed: class.fixed,
        default,
        has,
        direct: is_direct(class),
        factories,
        statics,
    })
}

fn class_itself(alloc: Global, class: &WrittenClass) -> Result<Declaration, AllocError>
    ensures { IfOk result (λ done. done ≡ class_itself class.now) }
{
    let has = listed_by(alloc, class)?;
    let factories = factories_of(alloc, class)?;
    let statics = statics_of(alloc, class)?;
    class_with(class, has, factories, statics)
}

/// The class where it stands, without places of parts.
pub(crate) fn class_site(
    alloc: Global,
    class: &WrittenClass,
    places: &DeclPlaces,
) -> Result<PlacedDeclaration, AllocError>
    ensures { IfOk result (λ site. site_view site ≡ class_site class.now places.now) }
{
    let declaration = class_itself(alloc, class)?;
    Ok(PlacedDeclaration {
        declaration,
        places: DeclPlaces {
            at: places.at,
            parts: Listed::new(alloc),
        },
    })
}
