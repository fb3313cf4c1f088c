//! Full types as a text that is short enough to be written by hand: a piece for each, with its id, its lists, its owner and its places.

use case_text::{declaration, head, places, use_text, uses};
use std::alloc::AllocError;
use wr_base::{DeclPlaces, Declaration, FullName, FullNames, PlacedTypes, TypeUse};

fn names(out: &mut String, word: &str, list: &FullNames) -> Result<(), AllocError> {
    for name in list.as_slice() {
        out.push_str(word)?;
        out.push_str(name.as_str())?;
    }
    Ok(())
}

fn default_text(out: &mut String, default: &Option<TypeUse>) -> Result<(), AllocError> {
    let Some(ty) = default else {
        return Ok(());
    };
    out.push_str(" default ")?;
    use_text(out, ty)
}

fn owner_text(out: &mut String, owner: &Option<FullName>) -> Result<(), AllocError> {
    let Some(name) = owner else {
        return Ok(());
    };
    out.push_str(" by ")?;
    out.push_str(name.as_str())
}

fn full_one(out: &mut String, one: &Declaration) -> Result<(), AllocError> {
    match one {
        Declaration::Class {
            name,
            version,
            fixed,
            default,
            has,
            direct,
            factories,
            statics,
        } => {
            head(out, "class", name.as_str(), *version)?;
            out.push_str(if *fixed { " fixed" } else { "" })?;
            out.push_str(if *direct { " direct" } else { "" })?;
            default_text(out, default)?;
            uses(out, has)?;
            names(out, " factory ", factories)?;
            names(out, " static ", statics)
        }
        Declaration::Interface { owner, .. } => {
            declaration(out, one)?;
            owner_text(out, owner)
        }
        _ => declaration(out, one),
    }
}

fn placed_one(out: &mut String, one: &Declaration, at: &DeclPlaces) -> Result<(), AllocError> {
    full_one(out, one)?;
    places(out, at)?;
    out.push_str("|")
}

/// The types, each with a `|` behind it.
pub fn full_text(out: &mut String, types: &PlacedTypes) -> Result<(), AllocError> {
    for i in 0..types.types.len() {
        if let Some(at) = types.places.as_slice().get(i as usize) {
            placed_one(out, types.types.at(i), at)?;
        }
    }
    Ok(())
}
