//! Declarations as the cases of rules and limits spell them, beside those of `declared.rt`:
//!
//! - `owned NAME ID OWNER USE ..`, an interface with an owner and with what it requires;
//! - `shows NAME ID USE`, an interface whose method `M` returns the use;
//! - `made NAME USE ..`, a class without default that can be made, with its list;
//! - `beside NAME DEFAULT USE ..`, a class with a default, and with its list;
//! - `lists NAME FACTORY STATIC USE ..`, a class with a factory, with an interface of static members, and with its list, whose first is its default;
//! - `cases NAME COUNT`, `fields NAME COUNT USE`, `takes NAME ID COUNT USE`, an enum, a struct and a delegate with as many cases, fields and parameters;
//! - `deep NAME ID COUNT DEPTH`, a delegate with as many parameters, each a `TypedEventHandler` of two such uses and so on, as deep as that.

use crate::declared::{first_of, id_of};
use crate::type_uses::{full_name, uses_of};
use case_text::decimal;
use sqlite_items::Items;
use std::alloc::{AllocError, Global};
use wr_base::{
    Base, Case, Declaration, Field, FullName, FullNames, Listed, Member, Members, Name, Param,
    Params, Signature, TypeUse,
};

fn two(text: &str) -> (&str, &str) {
    text.split_once(' ').unwrap_or((text, ""))
}

fn owned(alloc: Global, name: FullName, text: &str) -> Result<Declaration, AllocError> {
    let (id, rest) = two(text);
    let (owner, uses) = two(rest);
    Ok(Declaration::Interface {
        name,
        version: 1,
        id: id_of(id),
        owner: full_name(alloc, owner)?,
        requires_: Items::from_vec(uses_of(alloc, uses)?),
        members: Listed::new(alloc),
    })
}

fn method(alloc: Global, text: &str) -> Result<Member, AllocError> {
    let result = first_of(alloc, text)?;
    let name = Name::new(String::from_str(alloc, "M")?);
    let abi = Name::new(String::from_str(alloc, "M")?);
    let params = Listed::new(alloc);
    let sig = Signature { params, result };
    Ok(Member::Method { name, abi, sig })
}

fn methods(alloc: Global, text: &str) -> Result<Members, AllocError> {
    let mut members = Listed::new(alloc);
    members.push(method(alloc, text)?)?;
    Ok(members)
}

fn shows(alloc: Global, name: FullName, text: &str) -> Result<Declaration, AllocError> {
    let (id, rest) = two(text);
    Ok(Declaration::Interface {
        name,
        version: 1,
        id: id_of(id),
        owner: None,
        requires_: Items::new(alloc),
        members: methods(alloc, rest)?,
    })
}

fn class(
    alloc: Global,
    name: FullName,
    default: Option<TypeUse>,
    text: &str,
) -> Result<Declaration, AllocError> {
    Ok(Declaration::Class {
        name,
        version: 1,
        fixed: false,
        default,
        has: Items::from_vec(uses_of(alloc, text)?),
        direct: true,
        factories: Listed::new(alloc),
        statics: Listed::new(alloc),
    })
}

fn beside(alloc: Global, name: FullName, text: &str) -> Result<Declaration, AllocError> {
    let (default, rest) = two(text);
    class(alloc, name, first_of(alloc, default)?, rest)
}

fn one_name(alloc: Global, text: &str) -> Result<FullNames, AllocError> {
    let mut names = Listed::new(alloc);
    if let Some(name) = full_name(alloc, text)? {
        names.push(name)?;
    }
    Ok(names)
}

fn lists(alloc: Global, name: FullName, text: &str) -> Result<Declaration, AllocError> {
    let (factory, rest) = two(text);
    let (shown, uses) = two(rest);
    Ok(Declaration::Class {
        name,
        version: 1,
        fixed: false,
        default: first_of(alloc, uses)?,
        has: Items::from_vec(uses_of(alloc, uses)?),
        direct: false,
        factories: one_name(alloc, factory)?,
        statics: one_name(alloc, shown)?,
    })
}

// `A`, and a number.
fn numbered(alloc: Global, number: u32) -> Result<Name, AllocError> {
    Ok(Name::new(format!(in alloc; "A{number}")?))
}

fn cases(alloc: Global, name: FullName, text: &str) -> Result<Declaration, AllocError> {
    let mut cases = Listed::new(alloc);
    for number in 0..decimal(text) {
        let name = numbered(alloc, number)?;
        cases.push(Case { name, value: 0 })?;
    }
    Ok(Declaration::Enum {
        name,
        version: 1,
        flags: false,
        cases,
    })
}

fn fields_of(alloc: Global, count: u32, ty: &TypeUse) -> Result<Listed<Field>, AllocError> {
    let mut fields = Listed::new(alloc);
    for number in 0..count {
        let name = numbered(alloc, number)?;
        let ty = ty.clone()?;
        fields.push(Field { name, ty })?;
    }
    Ok(fields)
}

fn params_of(alloc: Global, count: u32, ty: &TypeUse) -> Result<Params, AllocError> {
    let mut params = Listed::new(alloc);
    for number in 0..count {
        let name = numbered(alloc, number)?;
        let ty = ty.clone()?;
        let out = false;
        params.push(Param { name, out, ty })?;
    }
    Ok(params)
}

// The first use that a text spells; Object where it spells none.
fn one_use(alloc: Global, text: &str) -> Result<TypeUse, AllocError> {
    match first_of(alloc, text)? {
        Some(ty) => Ok(ty),
        None => Ok(TypeUse::Plain(Base::Object)),
    }
}

fn fields(alloc: Global, name: FullName, text: &str) -> Result<Declaration, AllocError> {
    let (count, ty) = two(text);
    Ok(Declaration::Struct {
        name,
        version: 1,
        fields: fields_of(alloc, decimal(count), &one_use(alloc, ty)?)?,
    })
}

fn delegate(name: FullName, id: &str, params: Params) -> Declaration {
    let invoke = Signature {
        params,
        result: None,
    };
    Declaration::Delegate {
        name,
        version: 1,
        id: id_of(id),
        invoke,
    }
}

fn takes(alloc: Global, name: FullName, text: &str) -> Result<Declaration, AllocError> {
    let (id, rest) = two(text);
    let (count, ty) = two(rest);
    let params = params_of(alloc, decimal(count), &one_use(alloc, ty)?)?;
    Ok(delegate(name, id, params))
}

fn pair(alloc: Global, ty: TypeUse) -> Result<TypeUse, AllocError> {
    let mut arguments = Items::new(alloc);
    arguments.push(ty.clone()?)?;
    arguments.push(ty)?;
    match full_name(alloc, "Windows.Foundation.TypedEventHandler")? {
        Some(name) => Ok(TypeUse::Inst(name, arguments)),
        None => Ok(TypeUse::Plain(Base::Object)),
    }
}

fn nested(alloc: Global, depth: u32) -> Result<TypeUse, AllocError> {
    let mut ty = TypeUse::Plain(Base::Object);
    for _ in 1..depth {
        ty = pair(alloc, ty)?;
    }
    Ok(ty)
}

fn deep(alloc: Global, name: FullName, text: &str) -> Result<Declaration, AllocError> {
    let (id, rest) = two(text);
    let (count, depth) = two(rest);
    let ty = nested(alloc, decimal(depth))?;
    let params = params_of(alloc, decimal(count), &ty)?;
    Ok(delegate(name, id, params))
}

/// The declaration of one of these kinds; an enum for any other.
pub fn further(
    alloc: Global,
    kind: &str,
    name: FullName,
    rest: &str,
) -> Result<Declaration, AllocError> {
    match kind {
        "owned" => owned(alloc, name, rest),
        "shows" => shows(alloc, name, rest),
        "made" => class(alloc, name, None, rest),
        "beside" => beside(alloc, name, rest),
        "lists" => lists(alloc, name, rest),
        "fields" => fields(alloc, name, rest),
        "takes" => takes(alloc, name, rest),
        "deep" => deep(alloc, name, rest),
        _ => cases(alloc, name, rest),
    }
}
