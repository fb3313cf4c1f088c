//! Declarations as texts that are short enough to be written by hand.

use std::alloc::AllocError;
use wr_base::{
    Cases, DeclPlaces, Declaration, Fields, Member, Members, Params, Signature, TypeUse, Uses,
};

fn number(out: &mut String, value: u32) -> Result<(), AllocError> {
    let alloc = *out.allocator();
    let text = format!(in alloc; "{value}")?;
    out.push_str(text.as_str())
}

/// `$` for an enum or a struct, `&` for an interface, a delegate or a class, and the text.
pub fn use_text(out: &mut String, ty: &TypeUse) -> Result<(), AllocError> {
    match ty {
        TypeUse::Plain(_) => {}
        TypeUse::Value(_) => out.push_str("$")?,
        TypeUse::Reference(_) => out.push_str("&")?,
        TypeUse::Inst(_, _) => {}
    }
    ty.push_text(out)
}

/// ` :`, and the use, for each.
pub fn uses(out: &mut String, list: &Uses) -> Result<(), AllocError> {
    for ty in list.as_slice() {
        out.push_str(" :")?;
        use_text(out, ty)?;
    }
    Ok(())
}

fn params(out: &mut String, list: &Params) -> Result<(), AllocError> {
    for param in list.as_slice() {
        if param.out {
            out.push_str("out ")?;
        }
        use_text(out, &param.ty)?;
        out.push_str(" ")?;
        out.push_str(param.name.as_str())?;
        out.push_str(",")?;
    }
    Ok(())
}

pub fn signature(out: &mut String, sig: &Signature) -> Result<(), AllocError> {
    out.push_str("(")?;
    params(out, &sig.params)?;
    out.push_str(")")?;
    if let Some(ty) = &sig.result {
        out.push_str(" ")?;
        use_text(out, ty)?;
    }
    Ok(())
}

fn member(out: &mut String, one: &Member) -> Result<(), AllocError> {
    match one {
        Member::Method { name, abi, sig } => {
            out.push_str(" ")?;
            out.push_str(name.as_str())?;
            out.push_str("/")?;
            out.push_str(abi.as_str())?;
            signature(out, sig)
        }
        Member::Property { name, ty, put } => {
            out.push_str(if *put { " set " } else { " get " })?;
            out.push_str(name.as_str())?;
            out.push_str(" ")?;
            use_text(out, ty)
        }
        Member::Event { name, ty } => {
            out.push_str(" event ")?;
            out.push_str(name.as_str())?;
            out.push_str(" ")?;
            use_text(out, ty)
        }
    }
}

pub fn members(out: &mut String, list: &Members) -> Result<(), AllocError> {
    for one in list.as_slice() {
        member(out, one)?;
        out.push_str(";")?;
    }
    Ok(())
}

fn cases(out: &mut String, list: &Cases) -> Result<(), AllocError> {
    let alloc = *out.allocator();
    for case in list.as_slice() {
        let name = case.name.as_str();
        let value = case.value;
        let text = format!(in alloc; " {name}={value}")?;
        out.push_str(text.as_str())?;
    }
    Ok(())
}

fn fields(out: &mut String, list: &Fields) -> Result<(), AllocError> {
    for field in list.as_slice() {
        out.push_str(" ")?;
        use_text(out, &field.ty)?;
        out.push_str(" ")?;
        out.push_str(field.name.as_str())?;
    }
    Ok(())
}

pub fn head(out: &mut String, kind: &str, name: &str, version: u32) -> Result<(), AllocError> {
    out.push_str(kind)?;
    out.push_str(" ")?;
    out.push_str(name)?;
    out.push_str(" ")?;
    number(out, version)
}

pub fn id_text(out: &mut String, id: u128) -> Result<(), AllocError> {
    let alloc = *out.allocator();
    let text = format!(in alloc; " {id:x}")?;
    out.push_str(text.as_str())
}

/// Its kind, name and version, and its parts.
pub fn declaration(out: &mut String, one: &Declaration) -> Result<(), AllocError> {
    match one {
        Declaration::Enum {
            name,
            version,
            flags,
            cases: list,
        } => {
            head(
                out,
                if *flags { "flags" } else { "enum" },
                name.as_str(),
                *version,
            )?;
            cases(out, list)
        }
        Declaration::Struct {
            name,
            version,
            fields: list,
        } => {
            head(out, "struct", name.as_str(), *version)?;
            fields(out, list)
        }
        Declaration::Delegate {
            name,
            version,
            id,
            invoke,
        } => {
            head(out, "delegate", name.as_str(), *version)?;
            id_text(out, *id)?;
            signature(out, invoke)
        }
        Declaration::Interface {
            name,
            version,
            id,
            owner,
            requires_,
            members: list,
        } => {
            head(out, "interface", name.as_str(), *version)?;
            id_text(out, *id)?;
            if owner.is_some() {
                out.push_str(" owned")?;
            }
            uses(out, requires_)?;
            members(out, list)
        }
        Declaration::Class { .. } => out.push_str("class"),
    }
}

/// ` @`, and the offsets of its name and of its parts.
pub fn places(out: &mut String, list: &DeclPlaces) -> Result<(), AllocError> {
    out.push_str(" @")?;
    number(out, list.at.offset)?;
    for part in list.parts.as_slice() {
        out.push_str(",")?;
        number(out, part.offset)?;
    }
    Ok(())
}
