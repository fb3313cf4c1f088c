//! Type uses as cases spell them: `$A.B` for a value type, `&A.B` for another, a fundamental type by its word, and `A.B/2` for the instance of the last two.

use sqlite_items::Items;
use std::alloc::{AllocError, Global};
use wr_base::{Base, FullName, TypeUse};

/// The full name that a text is.
pub fn full_name(alloc: Global, text: &str) -> Result<Option<FullName>, AllocError> {
    Ok(FullName::new(String::from_str(alloc, text)?))
}

// The fundamental type of a word; Object where there is none.
fn fundamental(word: &str) -> TypeUse {
    TypeUse::Plain(Base::from_word(word).unwrap_or(Base::Object))
}

fn named(alloc: Global, word: &str) -> Result<TypeUse, AllocError> {
    let text = word.trim_start_matches('$').trim_start_matches('&');
    match full_name(alloc, text)? {
        Some(name) if word.starts_with("$") => Ok(TypeUse::Value(name)),
        Some(name) if word.starts_with("&") => Ok(TypeUse::Reference(name)),
        _ => Ok(fundamental(word)),
    }
}

// Two arguments, or the last alone.
fn arguments(
    alloc: Global,
    is_pair: bool,
    uses: &mut Vec<TypeUse>,
) -> Result<Items<TypeUse>, AllocError> {
    let mut arguments = Items::new(alloc);
    let last = uses.pop();
    if is_pair {
        if let Some(first) = uses.pop() {
            arguments.push(first)?;
        }
    }
    if let Some(last) = last {
        arguments.push(last)?;
    }
    Ok(arguments)
}

fn instance(
    alloc: Global,
    name: &str,
    count: &str,
    uses: &mut Vec<TypeUse>,
) -> Result<(), AllocError> {
    if let Some(name) = full_name(alloc, name)? {
        let arguments = arguments(alloc, count == "2", uses)?;
        uses.push(TypeUse::Inst(name, arguments))?;
    }
    Ok(())
}

fn push_word(alloc: Global, uses: &mut Vec<TypeUse>, word: &str) -> Result<(), AllocError> {
    match word.split_once('/') {
        Some((name, count)) => instance(alloc, name, count, uses),
        None => {
            uses.push(named(alloc, word)?)?;
            Ok(())
        }
    }
}

/// The uses that the words spell.
pub fn uses_of(alloc: Global, text: &str) -> Result<Vec<TypeUse>, AllocError> {
    let mut uses = Vec::new(alloc);
    for word in text.split_whitespace() {
        push_word(alloc, &mut uses, word)?;
    }
    Ok(uses)
}
