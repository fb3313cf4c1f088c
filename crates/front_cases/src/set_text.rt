//! What files declare as a text that is short enough to be written by hand: a piece for each item, with the offsets of its name and of its parts.

use case_text::{declaration, head, id_text, members, places, signature, uses};
use placed_items::{Placed, PlacedItem, Signatures, Written, WrittenClass};
use std::alloc::AllocError;

fn constructors(out: &mut String, list: &Signatures) -> Result<(), AllocError> {
    for sig in list.as_slice() {
        out.push_str(" new")?;
        signature(out, sig)?;
    }
    Ok(())
}

fn class_head(out: &mut String, one: &WrittenClass) -> Result<(), AllocError> {
    head(out, "class", one.name.as_str(), one.version)?;
    out.push_str(if one.fixed { " fixed" } else { "" })?;
    out.push_str(if one.marked { " marked" } else { "" })?;
    uses(out, &one.listed)
}

fn class(out: &mut String, one: &WrittenClass) -> Result<(), AllocError> {
    class_head(out, one)?;
    members(out, &one.members)?;
    out.push_str(" static")?;
    members(out, &one.statics)?;
    constructors(out, &one.constructors)
}

fn written(out: &mut String, one: &Written) -> Result<(), AllocError> {
    match one {
        Written::Done(done) => declaration(out, done),
        Written::Class(written) => class(out, written),
    }
}

fn stated_id(out: &mut String, id: Option<u128>) -> Result<(), AllocError> {
    let Some(id) = id else {
        return Ok(());
    };
    out.push_str(" id")?;
    id_text(out, id)
}

fn item(out: &mut String, one: &PlacedItem) -> Result<(), AllocError> {
    written(out, &one.item)?;
    stated_id(out, one.id)?;
    places(out, &one.places)?;
    out.push_str("|")
}

/// The items, each with a `|` behind it.
pub fn placed_text(out: &mut String, list: &Placed) -> Result<(), AllocError> {
    for one in list.as_slice() {
        item(out, one)?;
    }
    Ok(())
}
