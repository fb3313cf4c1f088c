//! How classes are made.

ghost use Rattle.std.specs.Prelude.{◌≡◌, ◌∷◌, ◌++◌, ◌||◌, [], IfOk, OnOk, bytes_eq, codes, map, string_bytes};
ghost use Rattle.winmd_attributes.specs.Seen.{attribute_seen};
ghost use Rattle.winmd_cells.specs.Given.{Gives};
ghost use Rattle.winmd_cells.specs.Seen.{tables_in};
ghost use Rattle.winmd_classes.specs.Seen.{making_seen};
ghost use Rattle.winmd_classes.specs.Ways.{making_at, making_from, making_in, making_named, through_in};
ghost use Rattle.winmd_rows.specs.Faults.{each};
ghost use Rattle.winmd_sets.specs.Classes as classes_as;
ghost use Rattle.wr_base.specs.Trees.{param_tree, text_of_tree, tree_of};

use md_schema::{ImageFault, ImageKind};
use ranked::{Memory, Stop};
use std::alloc::Global;
use winmd_attributes::{Attribute, signature_blob, signature_offset, type_name_of};
use winmd_blobs::method_of;
use winmd_source::{Source, refused};
use wr_base::{FullName, Param, TypeUse};

/// What an Activatable says: that the class is made without parameters, or by a factory.
#[derive(Drop)]
pub enum Making {
    Direct,
    Through(FullName),
}

fn through_in(
    alloc: Global,
    source: &Source<'_>,
    attribute: &Attribute<'_>,
) -> Result<Making, Stop<ImageFault>>
    ensures { Gives making_seen result (through_in (tables_in source.now.image) (attribute_seen source.now.image attribute.now)) }
{
    let name = type_name_of(alloc, source, attribute)?;
    Ok(Making::Through(name))
}

fn making_named(
    alloc: Global,
    source: &Source<'_>,
    offset: u64,
    attribute: &Attribute<'_>,
    text: &str,
) -> Result<Making, Stop<ImageFault>>
    ensures { Gives making_seen result (making_named (tables_in source.now.image) offset (attribute_seen source.now.image attribute.now) text.now) }
{
    if text == "UInt32" {
        Ok(Making::Direct)
    } else if text == "System.Type" {
        through_in(alloc, source, attribute)
    } else {
        Err(refused(ImageKind::BadShape, offset))
    }
}

#[tactic(auto, using(crate::proofs::MakingLaws::text_seen))]
fn making_by_type(
    alloc: Global,
    source: &Source<'_>,
    offset: u64,
    attribute: &Attribute<'_>,
    ty: &TypeUse,
) -> Result<Making, Stop<ImageFault>>
    ensures { Gives making_seen result (making_named (tables_in source.now.image) offset (attribute_seen source.now.image attribute.now) (text_of_tree (tree_of ty.now))) }
{
    let text = ty.text(alloc)?;
    making_named(alloc, source, offset, attribute, text.as_str())
}

fn making_at(
    alloc: Global,
    source: &Source<'_>,
    offset: u64,
    attribute: &Attribute<'_>,
    params: &[Param],
) -> Result<Making, Stop<ImageFault>>
    ensures { Gives making_seen result (making_at (tables_in source.now.image) offset (attribute_seen source.now.image attribute.now) (map param_tree params.now)) }
{
    match params.first() {
        None => Err(refused(ImageKind::BadShape, offset)),
        Some(param) => making_by_type(alloc, source, offset, attribute, &param.ty),
    }
}

fn making_from(
    alloc: Global,
    source: &Source<'_>,
    offset: u64,
    attribute: &Attribute<'_>,
    blob: &[u8],
) -> Result<Making, Stop<ImageFault>>
    ensures { Gives making_seen result (making_from (tables_in source.now.image) offset (attribute_seen source.now.image attribute.now) blob.now) }
{
    let sig = method_of(alloc, source, offset, blob)?;
    making_at(alloc, source, offset, attribute, sig.params.as_slice())
}

fn making_in(
    alloc: Global,
    source: &Source<'_>,
    attribute: &Attribute<'_>,
) -> Result<Making, Stop<ImageFault>>
    ensures { Gives making_seen result (making_in (tables_in source.now.image) (attribute_seen source.now.image attribute.now)) }
{
    let blob = signature_blob(source, attribute.made.maker)?;
    making_from(
        alloc,
        source,
        signature_offset(source, attribute.made.maker),
        attribute,
        blob,
    )
}

#[tactic(auto, using(crate::proofs::MakingLaws::making_by_offset))]
fn making_of(
    alloc: Global,
    source: &Source<'_>,
    attribute: &Attribute<'_>,
) -> Result<Making, Stop<ImageFault>>
    ensures { Gives making_seen result (classes_as.making_of (tables_in source.now.image) (attribute_seen source.now.image attribute.now)) }
{
    making_in(alloc, source, attribute)
}

/// What attributes say.
pub(crate) fn makings_of<'a>(
    alloc: Global,
    source: &Source<'a>,
    attributes: &[Attribute<'a>],
) -> Result<Vec<Making>, Stop<ImageFault>>
    ensures { Gives (λ x. map making_seen x.items) result (each (classes_as.making_of (tables_in source.now.image)) (map (attribute_seen source.now.image) attributes.now)) }
{
    let mut makings = Vec::new(alloc);
    for attribute in attributes {
        let making = making_of(alloc, source, attribute)?;
        makings.push(making)?;
    }
    Ok(makings)
}

fn either(a: bool, b: bool) -> bool
    ensures { result ≡ (a || b) }
{
    a || b
}

fn is_one_direct(making: &Making) -> bool
    ensures { result ≡ classes_as.is_direct (making_seen making.now ∷ []) }
{
    matches!(making, Making::Direct)
}

/// Whether one of them is without parameters.
pub(crate) fn is_direct(makings: &[Making]) -> bool
    ensures { result ≡ classes_as.is_direct (map making_seen makings.now) }
{
    let mut direct = false;
    let mut rest = makings;
    'each: while let Some((making, after)) = rest.split_first() {
        direct = either(direct, is_one_direct(making));
        rest = after;
    }
    direct
}

fn put(into: &mut Vec<FullName>, making: Making) -> Result<(), Memory>
    ensures { OnOk result (into.new.items ≡ into.old.items ++ classes_as.throughs (making_seen making ∷ [])) }
{
    if let Making::Through(name) = making {
        into.push(name)?;
    }
    Ok(())
}

/// The factories among them.
pub(crate) fn throughs(alloc: Global, makings: Vec<Making>) -> Result<Vec<FullName>, Memory>
    ensures { IfOk result (λ x. x.items ≡ classes_as.throughs (map making_seen makings.items)) }
{
    let mut names = Vec::new(alloc);
    for making in makings {
        put(&mut names, making)?;
    }
    Ok(names)
}
