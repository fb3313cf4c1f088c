//! The default interface of a class.

ghost use Rattle.std.specs.Prelude.{◌≡◌, ◌∷◌, ◌++◌, [], IfOk, OnOk, None, Some, map, option_map, if◌then◌else◌};
ghost use Rattle.winmd_cells.specs.Given.{Gives};
ghost use Rattle.winmd_cells.specs.Seen.{tables_in};
ghost use Rattle.winmd_classes.specs.Parts.{has_in};
ghost use Rattle.winmd_classes.specs.Seen.{implemented_seen};
ghost use Rattle.winmd_rows.specs.Faults as faults_as;
ghost use Rattle.winmd_sets.specs.Attributes as attributes_as;
ghost use Rattle.winmd_sets.specs.Classes as classes_as;
ghost use Rattle.wr_base.specs.Trees.{tree_of};

use crate::implemented::{Implemented, interfaces_of, types_of};
use md_schema::{ImageFault, ImageKind, Table};
use ranked::{Memory, Stop};
use std::alloc::Global;
use winmd_attributes::{Word, attributes_of, has_word};
use winmd_source::{Source, refused};
use wr_base::TypeUse;

fn kept(is_kept: bool, ty: &TypeUse) -> Result<Option<TypeUse>, Memory>
    ensures { IfOk result (λ x. x ≡ (if is_kept then Some ty.now else None)) }
{
    if is_kept {
        Ok(Some(ty.clone()?))
    } else {
        Ok(None)
    }
}

/// An interface that has the attribute of the default.
#[tactic(auto, using(crate::proofs::SeenLaws::kept_seen))]
fn with_default(
    alloc: Global,
    source: &Source<'_>,
    interface: &Implemented,
) -> Result<Option<TypeUse>, Stop<ImageFault>>
    ensures { Gives (option_map tree_of) result (classes_as.with_default (tables_in source.now.image) (implemented_seen interface.now)) }
{
    let attributes = attributes_of(alloc, source, source.attributes_of_interface(interface.row))?;
    let is_default = has_word(source, Word::Default, attributes.as_slice());
    Ok(kept(is_default, &interface.ty)?)
}

fn with_defaults(
    alloc: Global,
    source: &Source<'_>,
    interfaces: &[Implemented],
) -> Result<Vec<Option<TypeUse>>, Stop<ImageFault>>
    ensures { Gives (λ x. map (option_map tree_of) x.items) result (faults_as.each (classes_as.with_default (tables_in source.now.image)) (map implemented_seen interfaces.now)) }
{
    let mut defaults = Vec::new(alloc);
    let mut rest = interfaces;
    'each: while let Some((interface, after)) = rest.split_first() {
        let default = with_default(alloc, source, interface)?;
        defaults.push(default)?;
        rest = after;
    }
    Ok(defaults)
}

fn put(into: &mut Vec<TypeUse>, ty: Option<TypeUse>) -> Result<(), Memory>
    ensures { OnOk result (into.new.items ≡ into.old.items ++ faults_as.somes (ty ∷ [])) }
{
    if let Some(ty) = ty {
        into.push(ty)?;
    }
    Ok(())
}

fn somes(alloc: Global, list: Vec<Option<TypeUse>>) -> Result<Vec<TypeUse>, Memory>
    ensures { IfOk result (λ x. x.items ≡ faults_as.somes list.items) }
{
    let mut found = Vec::new(alloc);
    for ty in list {
        put(&mut found, ty)?;
    }
    Ok(found)
}

/// The use of a list that has at most one. Refused with BadShape at an offset where there is another.
fn at_most_one(offset: u64, uses: Vec<TypeUse>) -> Result<Option<TypeUse>, Stop<ImageFault>>
    ensures { Gives (option_map tree_of) result (attributes_as.at_most_one offset (map tree_of uses.items)) }
{
    let mut uses = uses;
    let last = uses.pop();
    if uses.is_empty() {
        Ok(last)
    } else {
        Err(refused(ImageKind::BadShape, offset))
    }
}

#[tactic(auto, using(crate::proofs::SeenLaws::somes_seen))]
fn default_of(
    alloc: Global,
    source: &Source<'_>,
    n: u32,
    interfaces: &[Implemented],
) -> Result<Option<TypeUse>, Stop<ImageFault>>
    ensures { Gives (option_map tree_of) result (classes_as.default_of (tables_in source.now.image) n (map implemented_seen interfaces.now)) }
{
    let defaults = with_defaults(alloc, source, interfaces)?;
    let found = somes(alloc, defaults)?;
    at_most_one(source.image.offset(Table::TypeDef, n, 0), found)
}

/// The default interface of a class, and all its interfaces.
#[derive(Drop)]
pub struct Has {
    pub default: Option<TypeUse>,
    pub types: Vec<TypeUse>,
}

/// What the class in a row has.
pub(crate) fn has_in(alloc: Global, source: &Source<'_>, n: u32) -> Result<Has, Stop<ImageFault>>
    ensures { Gives (λ x. (option_map tree_of x.default, map tree_of x.types.items)) result (has_in (tables_in source.now.image) n) }
{
    let interfaces = interfaces_of(alloc, source, n)?;
    let default = default_of(alloc, source, n, interfaces.as_slice())?;
    let types = types_of(alloc, interfaces)?;
    Ok(Has { default, types })
}
