//! Signatures and identifiers: `use USE ..` prints those of each use, and `none` where there are none; `named NAME ..` the identifiers of names; `ids` each text that the
//! set uses with its identifier; `chain NUMBER` how long the signature of the last of so many structs is, each in the next, and the identifier of a reference to it.

use crate::given::types_of;
use crate::type_uses::{full_name, uses_of};
use pinterface_id::{has_signature, id_of, ids_of, named_id, signature};
use sqlite_items::Items;
use std::alloc::{AllocError, Global};
use wr_base::{Base, Declaration, Field, Fields, FullName, Listed, Name, TypeUse, Types, UseId};

fn push_id(out: &mut String, id: u128) -> Result<(), AllocError> {
    let alloc = *out.allocator();
    out.push_str(format!(in alloc; " {id:032x}")?.as_str())
}

// The identifier of an instance that has a signature.
fn push_instance(out: &mut String, types: &Types, ty: &TypeUse) -> Result<(), AllocError> {
    let alloc = *out.allocator();
    match ty {
        TypeUse::Inst(_, _) => {
            if has_signature(alloc, types, ty)? {
                return push_id(out, id_of(alloc, types, ty)?);
            }
            Ok(())
        }
        _ => Ok(()),
    }
}

fn push_signature(out: &mut String, types: &Types, ty: &TypeUse) -> Result<(), AllocError> {
    match signature(*out.allocator(), types, ty)? {
        None => out.push_str("none"),
        Some(text) => out.push_str(text.as_str()),
    }
}

fn push_uses(out: &mut String, types: &Types, list: &[TypeUse]) -> Result<(), AllocError> {
    for ty in list {
        push_signature(out, types, ty)?;
        push_instance(out, types, ty)?;
        out.push_str("|")?;
    }
    Ok(())
}

/// The signature of each use, and of an instance its identifier.
pub fn uses(alloc: Global, types: &Types, case: &str) -> Result<String, AllocError> {
    let list = uses_of(alloc, case)?;
    let mut out = String::new(alloc);
    push_uses(&mut out, types, &list)?;
    Ok(out)
}

fn push_entry(out: &mut String, text: &str, id: u128) -> Result<(), AllocError> {
    out.push_str(text)?;
    push_id(out, id)?;
    out.push_str("|")
}

fn push_named(out: &mut String, word: &str) -> Result<(), AllocError> {
    match full_name(*out.allocator(), word)? {
        None => Ok(()),
        Some(name) => push_entry(out, word, named_id(&name)),
    }
}

/// The identifier of each name.
pub fn names(alloc: Global, case: &str) -> Result<String, AllocError> {
    let mut out = String::new(alloc);
    for word in case.split_whitespace() {
        push_named(&mut out, word)?;
    }
    Ok(out)
}

fn push_entries(out: &mut String, entries: &[UseId]) -> Result<(), AllocError> {
    for entry in entries {
        push_entry(out, entry.text.as_str(), entry.id)?;
    }
    Ok(())
}

/// Each text that the set uses, with its identifier.
pub fn ids(alloc: Global, types: &Types) -> Result<String, AllocError> {
    let listed = ids_of(alloc, types)?;
    let mut out = String::new(alloc);
    push_entries(&mut out, listed.as_slice())?;
    Ok(out)
}

fn link_name(alloc: Global, number: u32) -> Result<FullName, AllocError> {
    let text = format!(in alloc; "C.S{number}")?;
    match FullName::new(text) {
        Some(name) => Ok(name),
        None => Err(AllocError),
    }
}

fn fields_of(alloc: Global, ty: TypeUse) -> Result<Fields, AllocError> {
    let mut fields = Listed::new(alloc);
    let name = Name::empty(alloc);
    fields.push(Field { name, ty })?;
    Ok(fields)
}

// A struct whose one field is of this type.
fn link(alloc: Global, number: u32, ty: TypeUse) -> Result<Declaration, AllocError> {
    let fields = fields_of(alloc, ty)?;
    Ok(Declaration::Struct {
        name: link_name(alloc, number)?,
        version: 1,
        fields,
    })
}

// The struct of this number, the first of a number and any other of the one before.
fn nested(alloc: Global, number: u32) -> Result<Declaration, AllocError> {
    if number == 0 {
        return link(alloc, 0, TypeUse::Plain(Base::I32));
    }
    let inner = link_name(alloc, number - 1)?;
    link(alloc, number, TypeUse::Value(inner))
}

fn links(alloc: Global, count: u32) -> Result<Vec<Declaration>, AllocError> {
    let mut list = Vec::new(alloc);
    for number in 0..count {
        list.push(nested(alloc, number)?)?;
    }
    Ok(list)
}

fn reference_to(alloc: Global, ty: TypeUse) -> Result<Option<TypeUse>, AllocError> {
    let mut arguments = Items::new(alloc);
    arguments.push(ty)?;
    match full_name(alloc, "Windows.Foundation.IReference")? {
        None => Ok(None),
        Some(name) => Ok(Some(TypeUse::Inst(name, arguments))),
    }
}

fn push_length(out: &mut String, types: &Types, ty: &TypeUse) -> Result<(), AllocError> {
    let alloc = *out.allocator();
    let length = match signature(alloc, types, ty)? {
        None => 0,
        Some(text) => text.len(),
    };
    out.push_str(format!(in alloc; "{length}")?.as_str())
}

fn push_chain(out: &mut String, types: &Types, last: TypeUse) -> Result<(), AllocError> {
    push_length(out, types, &last)?;
    match reference_to(*out.allocator(), last)? {
        None => Ok(()),
        Some(ty) => push_instance(out, types, &ty),
    }
}

fn chain_of(alloc: Global, types: &Types, count: u32) -> Result<String, AllocError> {
    let last = link_name(alloc, count.saturating_sub(1))?;
    let mut out = String::new(alloc);
    push_chain(&mut out, types, TypeUse::Value(last))?;
    Ok(out)
}

/// The signature's length of the last of so many structs, each in the next, and the identifier of a reference to it.
pub fn chain(alloc: Global, count: u32) -> Result<String, AllocError> {
    match types_of(alloc, links(alloc, count)?) {
        Ok(types) => chain_of(alloc, &types, count),
        Err(_) => String::from_str(alloc, "no set"),
    }
}
