//! The declarations of the lines so far: `set` makes them a set, which the lines behind it speak of, and prints how many there are, or the name that stands twice.

use crate::declared::declaration;
use crate::type_uses::full_name;
use case_text::bytes_of;
use std::alloc::{AllocError, Global};
use wr_base::{Declaration, FullName, Stop, Types};

/// What is declared since the last set, and the set.
#[derive(Drop)]
pub struct Given {
    pub list: Vec<Declaration>,
    pub types: Types,
}

fn refused(alloc: Global, name: &FullName) -> Stop<String> {
    match String::from_str(alloc, name.as_str()) {
        Ok(text) => Stop::Refused(text),
        Err(_) => Stop::Memory,
    }
}

/// A set of declarations, of which there are at most a million.
pub fn types_of(alloc: Global, list: Vec<Declaration>) -> Result<Types, Stop<String>> {
    if list.len() > 1000000 {
        return Err(Stop::Memory);
    }
    match Types::from_list(alloc, list) {
        Ok(types) => Ok(types),
        Err(Stop::Memory) => Err(Stop::Memory),
        Err(Stop::Refused(name)) => Err(refused(alloc, &name)),
    }
}

fn set_to(alloc: Global, given: &mut Given, list: Vec<Declaration>) -> Result<String, AllocError> {
    match types_of(alloc, list) {
        Ok(types) => {
            given.types = types;
            format!(in alloc; "{} types", given.types.len())
        }
        Err(Stop::Refused(name)) => format!(in alloc; "twice: {}", name.as_str()),
        Err(Stop::Memory) => Err(AllocError),
    }
}

/// What was declared since the last set, of which nothing stays.
pub fn take(alloc: Global, given: &mut Given) -> Vec<Declaration> {
    let mut list = Vec::new(alloc);
    std::mem::swap(&mut list, &mut given.list);
    list
}

/// Makes a set of what is declared.
pub fn set(alloc: Global, given: &mut Given) -> Result<String, AllocError> {
    let list = take(alloc, given);
    set_to(alloc, given, list)
}

// A name may be spelled by bytes: `COUNT*TEXT` between grave accents.
fn spelled_name(alloc: Global, word: &str) -> Result<Option<FullName>, AllocError> {
    let bytes = bytes_of(alloc, word)?;
    full_name(alloc, std::str::from_utf8(&bytes).unwrap_or("?"))
}

/// Declares a type of this kind, and prints its name.
pub fn declare(
    alloc: Global,
    given: &mut Given,
    kind: &str,
    case: &str,
) -> Result<String, AllocError> {
    let (word, rest) = case.split_once(' ').unwrap_or((case, ""));
    match spelled_name(alloc, word)? {
        None => String::from_str(alloc, "no name"),
        Some(name) => {
            given.list.push(declaration(alloc, kind, name, rest)?)?;
            String::from_str(alloc, word)
        }
    }
}
