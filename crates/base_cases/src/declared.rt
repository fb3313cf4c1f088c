//! Sets of declarations, ids by text, and codes.
//!
//! `types DECLARATION|DECLARATION ..;NAME ..` prints the set of the declarations `enum NAME CASE=VALUE ..` and `interface NAME USE ..`, and where in it the names
//! stand; `useids TEXT=ID ..;TEXT ..` the ids of texts.

use crate::type_uses::{full_name, uses_of};
use case_text::{declaration, halves, places};
use sqlite_items::Items;
use std::alloc::{AllocError, Global};
use wr_base::{
    Case, Cases, Code, DeclPlaces, Declaration, FullName, Ids, Listed, Name, Places, Rank, Same,
    Stop, Types, UseId,
};

// A case `NAME=VALUE`; a word without `=` spells none.
fn push_case(into: &mut Cases, alloc: Global, word: &str) -> Result<(), AllocError> {
    let Some((name, value)) = word.split_once('=') else {
        return Ok(());
    };
    let name = Name::new(String::from_str(alloc, name)?);
    let value = value.parse().unwrap_or(0);
    into.push(Case { name, value })
}

fn cases_of(alloc: Global, text: &str) -> Result<Cases, AllocError> {
    let mut cases = Listed::new(alloc);
    for word in text.split_whitespace() {
        push_case(&mut cases, alloc, word)?;
    }
    Ok(cases)
}

fn enum_of(alloc: Global, name: FullName, text: &str) -> Result<Declaration, AllocError> {
    let cases = cases_of(alloc, text)?;
    Ok(Declaration::Enum {
        name,
        version: 1,
        flags: false,
        cases,
    })
}

fn interface_of(alloc: Global, name: FullName, text: &str) -> Result<Declaration, AllocError> {
    let uses = uses_of(alloc, text)?;
    Ok(Declaration::Interface {
        name,
        version: 1,
        id: 7,
        owner: None,
        requires_: Items::from_vec(uses),
        members: Listed::new(alloc),
    })
}

fn named_by(
    alloc: Global,
    kind: &str,
    name: FullName,
    rest: &str,
) -> Result<Declaration, AllocError> {
    match kind {
        "enum" => enum_of(alloc, name, rest),
        _ => interface_of(alloc, name, rest),
    }
}

fn push_declaration(
    into: &mut Vec<Declaration>,
    alloc: Global,
    text: &str,
) -> Result<(), AllocError> {
    let (kind, rest) = text.split_once(' ').unwrap_or((text, ""));
    let (name, rest) = rest.split_once(' ').unwrap_or((rest, ""));
    match full_name(alloc, name)? {
        Some(name) => into.push(named_by(alloc, kind, name, rest)?)?,
        None => {}
    }
    Ok(())
}

fn declarations_of(alloc: Global, text: &str) -> Result<Vec<Declaration>, AllocError> {
    let mut list = Vec::new(alloc);
    for part in text.split('|') {
        push_declaration(&mut list, alloc, part)?;
    }
    Ok(list)
}

// The set of at most 1,000 declarations.
fn set_of(alloc: Global, text: &str) -> Result<Types, Stop<FullName>> {
    let list = declarations_of(alloc, text)?;
    if list.len() > 1000 {
        return Err(Stop::Memory);
    }
    Types::from_list(alloc, list)
}

fn place_of(alloc: Global, types: &Types, text: &str) -> Result<Option<u32>, AllocError> {
    match full_name(alloc, text)? {
        Some(name) => Ok(types.find(&name)),
        None => Ok(None),
    }
}

fn push_place(out: &mut String, types: &Types, text: &str) -> Result<(), AllocError> {
    let alloc = *out.allocator();
    let found = place_of(alloc, types, text)?;
    out.push_str(format!(in alloc; " {text}:{found:?}")?.as_str())
}

fn push_places(out: &mut String, types: &Types, names: &str) -> Result<(), AllocError> {
    for name in names.split_whitespace() {
        push_place(out, types, name)?;
    }
    Ok(())
}

fn push_one(out: &mut String, one: &Declaration, at: &DeclPlaces) -> Result<(), AllocError> {
    declaration(out, one)?;
    places(out, at)?;
    out.push_str("|")
}

// The declarations in the order of the set, and behind each its places.
fn push_types(out: &mut String, types: &Types, all: &Places) -> Result<(), AllocError> {
    let mut at = 0u32;
    for listed in all.as_slice() {
        if at < types.len() {
            push_one(out, types.at(at), listed)?;
        }
        at = at.wrapping_add(1);
    }
    Ok(())
}

fn push_copied(out: &mut String, types: &Types, all: &Places) -> Result<(), AllocError> {
    let copy = all.clone()?;
    push_types(out, types, &copy)
}

// The places as they are numbered where no file declares the types.
fn push_numbered(out: &mut String, types: &Types) -> Result<(), AllocError> {
    if !Places::fits(types) {
        return Ok(());
    }
    let places = Places::plain(*out.allocator(), types)?;
    push_copied(out, types, &places)
}

fn push_same(out: &mut String, types: &Types) -> Result<(), AllocError> {
    let copy = types.clone()?;
    out.push_str(if copy.same(types) {
        " same"
    } else {
        " another"
    })
}

fn push_set(out: &mut String, types: &Types, names: &str) -> Result<(), AllocError> {
    push_numbered(out, types)?;
    push_same(out, types)?;
    push_places(out, types, names)
}

fn push_twice(out: &mut String, name: &FullName) -> Result<(), AllocError> {
    out.push_str("twice: ")?;
    out.push_str(name.as_str())
}

/// The set, or the full name that stands twice.
pub fn types(out: &mut String, case: &str) -> Result<(), AllocError> {
    let (listed, names) = halves(case);
    match set_of(*out.allocator(), listed) {
        Ok(types) => push_set(out, &types, names),
        Err(Stop::Refused(name)) => push_twice(out, &name),
        Err(Stop::Memory) => out.push_str("memory"),
    }
}

fn push_id(into: &mut Vec<UseId>, alloc: Global, word: &str) -> Result<(), AllocError> {
    let Some((text, id)) = word.split_once('=') else {
        return Ok(());
    };
    let text = Name::new(String::from_str(alloc, text)?);
    let id = id.parse().unwrap_or(0);
    into.push(UseId { text, id })?;
    Ok(())
}

fn ids_of(alloc: Global, text: &str) -> Result<Ids, AllocError> {
    let mut list = Vec::new(alloc);
    for word in text.split_whitespace() {
        push_id(&mut list, alloc, word)?;
    }
    Ids::from_list(alloc, list)
}

fn push_found(out: &mut String, ids: &Ids, text: &str) -> Result<(), AllocError> {
    let alloc = *out.allocator();
    let id = ids.id(text);
    out.push_str(format!(in alloc; " {text}:{id:?}")?.as_str())
}

fn push_ids(out: &mut String, ids: &Ids, texts: &str) -> Result<(), AllocError> {
    let alloc = *out.allocator();
    out.push_str(format!(in alloc; "{}", ids.as_slice().len())?.as_str())?;
    for text in texts.split_whitespace() {
        push_found(out, ids, text)?;
    }
    Ok(())
}

/// How many ids are listed, and the id of each text.
pub fn use_ids(out: &mut String, case: &str) -> Result<(), AllocError> {
    let (listed, texts) = halves(case);
    let ids = ids_of(*out.allocator(), listed)?;
    push_ids(out, &ids, texts)
}

/// The number of one code in the order of codes, and the name of another.
pub fn codes(out: &mut String) -> Result<(), AllocError> {
    let alloc = *out.allocator();
    out.push_str(format!(in alloc; "{} {}", Code::ManyUses.rank(), Code::NotUtf8.name())?.as_str())
}
