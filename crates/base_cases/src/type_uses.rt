//! Type uses as cases spell them: `$A.B` for a value type, `&A.B` for another, `String`, `UInt8` and `Object`, and `A.B/2` for the instance of the last two.

use case_text::use_text;
use sqlite_items::Items;
use std::alloc::{AllocError, Global};
use wr_base::{Base, FullName, Same, TypeUse, Uses};

/// The full name that a text is.
pub fn full_name(alloc: Global, text: &str) -> Result<Option<FullName>, AllocError> {
    Ok(FullName::new(String::from_str(alloc, text)?))
}

fn base_of(word: &str) -> TypeUse {
    match word {
        "UInt8" => TypeUse::Plain(Base::U8),
        "String" => TypeUse::Plain(Base::Text),
        _ => TypeUse::Plain(Base::Object),
    }
}

fn named(alloc: Global, word: &str) -> Result<TypeUse, AllocError> {
    let text = word.trim_start_matches('$').trim_start_matches('&');
    match full_name(alloc, text)? {
        Some(name) if word.starts_with("$") => Ok(TypeUse::Value(name)),
        Some(name) => Ok(TypeUse::Reference(name)),
        None => Ok(base_of(word)),
    }
}

// The last two uses.
fn arguments(alloc: Global, uses: &mut Vec<TypeUse>) -> Result<Uses, AllocError> {
    let mut arguments = Items::new(alloc);
    let second = uses.pop();
    if let Some(first) = uses.pop() {
        arguments.push(first)?;
    }
    if let Some(second) = second {
        arguments.push(second)?;
    }
    Ok(arguments)
}

fn push_instance(uses: &mut Vec<TypeUse>, alloc: Global, name: &str) -> Result<(), AllocError> {
    let arguments = arguments(alloc, uses)?;
    match full_name(alloc, name)? {
        Some(name) => uses.push(TypeUse::Inst(name, arguments))?,
        None => {}
    }
    Ok(())
}

fn push_word(uses: &mut Vec<TypeUse>, alloc: Global, word: &str) -> Result<(), AllocError> {
    match word.split_once('/') {
        Some((name, _)) => push_instance(uses, alloc, name)?,
        None => uses.push(named(alloc, word)?)?,
    }
    Ok(())
}

/// The uses that the words spell.
pub fn uses_of(alloc: Global, text: &str) -> Result<Vec<TypeUse>, AllocError> {
    let mut uses = Vec::new(alloc);
    for word in text.split_whitespace() {
        push_word(&mut uses, alloc, word)?;
    }
    Ok(uses)
}

fn push_use(out: &mut String, use_: &TypeUse) -> Result<(), AllocError> {
    use_text(out, use_)?;
    let copy = use_.clone()?;
    out.push_str(if copy.same(use_) { " same" } else { " other" })
}

fn push_uses(out: &mut String, uses: &[TypeUse]) -> Result<(), AllocError> {
    for use_ in uses {
        push_use(out, use_)?;
    }
    Ok(())
}

/// `use WORD ..` prints each use, and whether its copy is the same.
pub fn type_use(out: &mut String, case: &str) -> Result<(), AllocError> {
    let uses = uses_of(*out.allocator(), case)?;
    push_uses(out, &uses)
}
