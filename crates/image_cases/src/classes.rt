//! Declarations as texts, those of classes whole.

use case_text::{declaration, head, use_text, uses};
use std::alloc::AllocError;
use wr_base::{Declaration, FullNames, TypeUse, Uses};

fn marked(out: &mut String, mark: &str, is_marked: bool) -> Result<(), AllocError> {
    if is_marked {
        out.push_str(mark)
    } else {
        Ok(())
    }
}

fn names(out: &mut String, mark: &str, list: &FullNames) -> Result<(), AllocError> {
    for name in list.as_slice() {
        out.push_str(mark)?;
        out.push_str(name.as_str())?;
    }
    Ok(())
}

fn interfaces(out: &mut String, default: &Option<TypeUse>, has: &Uses) -> Result<(), AllocError> {
    if let Some(ty) = default {
        out.push_str(" default ")?;
        use_text(out, ty)?;
    }
    uses(out, has)
}

fn makings(
    out: &mut String,
    direct: bool,
    factories: &FullNames,
    statics: &FullNames,
) -> Result<(), AllocError> {
    marked(out, " direct", direct)?;
    names(out, " factory ", factories)?;
    names(out, " static ", statics)
}

/// Its kind, name and version, and its parts. Of a class: ` fixed` where it is, its default and its interfaces, ` direct` where it is made without
/// parameters, its factories and its interfaces of statics.
pub fn declared(out: &mut String, one: &Declaration) -> Result<(), AllocError> {
    match one {
        Declaration::Class {
            name,
            version,
            fixed,
            default,
            has,
            direct,
            factories,
            statics,
        } => {
            head(out, "class", name.as_str(), *version)?;
            marked(out, " fixed", *fixed)?;
            interfaces(out, default, has)?;
            makings(out, *direct, factories, statics)
        }
        _ => declaration(out, one),
    }
}
