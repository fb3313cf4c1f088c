//! Declarations as cases spell them: `enum NAME`, `flags NAME`, `struct NAME USE ..`, `delegate NAME ID`, `interface NAME ID USE ..` with what it requires, and `class NAME
//! USE ..` with its list, the first of which is its default.

use crate::further::further;
use crate::type_uses::uses_of;
use sqlite_items::Items;
use std::alloc::{AllocError, Global};
use wr_base::{Declaration, Field, Fields, FullName, Listed, Name, Signature, TypeUse};

fn enumeration(alloc: Global, name: FullName, flags: bool) -> Declaration {
    Declaration::Enum {
        name,
        version: 1,
        flags,
        cases: Listed::new(alloc),
    }
}

fn fields_of(alloc: Global, text: &str) -> Result<Fields, AllocError> {
    let mut fields = Listed::new(alloc);
    for ty in uses_of(alloc, text)? {
        let name = Name::empty(alloc);
        fields.push(Field { name, ty })?;
    }
    Ok(fields)
}

fn structure(alloc: Global, name: FullName, text: &str) -> Result<Declaration, AllocError> {
    Ok(Declaration::Struct {
        name,
        version: 1,
        fields: fields_of(alloc, text)?,
    })
}

/// The identifier of hexadecimal digits.
pub fn id_of(text: &str) -> u128 {
    u128::from_str_radix(text, 16).unwrap_or(0)
}

fn delegate(alloc: Global, name: FullName, text: &str) -> Declaration {
    Declaration::Delegate {
        name,
        version: 1,
        id: id_of(text),
        invoke: Signature {
            params: Listed::new(alloc),
            result: None,
        },
    }
}

fn interface(alloc: Global, name: FullName, text: &str) -> Result<Declaration, AllocError> {
    let (id, uses) = text.split_once(' ').unwrap_or((text, ""));
    Ok(Declaration::Interface {
        name,
        version: 1,
        id: id_of(id),
        owner: None,
        requires_: Items::from_vec(uses_of(alloc, uses)?),
        members: Listed::new(alloc),
    })
}

/// The first use that a text spells.
pub fn first_of(alloc: Global, text: &str) -> Result<Option<TypeUse>, AllocError> {
    match uses_of(alloc, text)?.first() {
        None => Ok(None),
        Some(first) => Ok(Some(first.clone()?)),
    }
}

fn class(alloc: Global, name: FullName, text: &str) -> Result<Declaration, AllocError> {
    Ok(Declaration::Class {
        name,
        version: 1,
        fixed: false,
        default: first_of(alloc, text)?,
        has: Items::from_vec(uses_of(alloc, text)?),
        direct: false,
        factories: Listed::new(alloc),
        statics: Listed::new(alloc),
    })
}

/// The declaration of a kind, a name and the rest of the case.
pub fn declaration(
    alloc: Global,
    kind: &str,
    name: FullName,
    rest: &str,
) -> Result<Declaration, AllocError> {
    match kind {
        "enum" => Ok(enumeration(alloc, name, false)),
        "flags" => Ok(enumeration(alloc, name, true)),
        "struct" => structure(alloc, name, rest),
        "delegate" => Ok(delegate(alloc, name, rest)),
        "interface" => interface(alloc, name, rest),
        "class" => class(alloc, name, rest),
        kind => further(alloc, kind, name, rest),
    }
}
