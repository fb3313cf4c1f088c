//! Values of attributes.

use ranked::Name;
use sig_blobs::{Argument, ArgumentKind, first_argument, put_attribute};
use std::alloc::{AllocError, Global};
use wr_base::FullName;

/// The first argument of a value.
pub fn first(alloc: Global, what: &str, blob: &[u8]) -> Result<String, AllocError> {
    let kind = match what {
        "number" => ArgumentKind::Number,
        "words" => ArgumentKind::Words,
        "type" => ArgumentKind::TypeName,
        _ => ArgumentKind::Id,
    };
    format!(in alloc; "{:?}", first_argument(alloc, blob, kind))
}

// An argument by its kind and its text; one that isn't spelled so is the number 0.
fn argument(alloc: Global, kind: &str, text: &str) -> Result<Argument, AllocError> {
    if kind == "words" {
        return Ok(Argument::Words(Name::new(String::from_str(alloc, text)?)));
    }
    if kind == "type" {
        return match FullName::new(String::from_str(alloc, text)?) {
            Some(name) => Ok(Argument::TypeName(name)),
            None => Ok(Argument::Number(0)),
        };
    }
    if kind == "id" {
        return Ok(Argument::Id(u128::from_str_radix(text, 16).unwrap_or(0)));
    }
    Ok(Argument::Number(text.parse().unwrap_or(0)))
}

/// The bytes of a value with these arguments, each a kind, `=` and a text.
pub fn value(alloc: Global, text: &str) -> Result<String, AllocError> {
    let mut args = Vec::new(alloc);
    for word in text.split_whitespace() {
        let (kind, text) = word.split_once('=').unwrap_or((word, ""));
        args.push(argument(alloc, kind, text)?)?;
    }
    let mut into = Vec::new(alloc);
    put_attribute(&mut into, &args)?;
    hex::encode(alloc, into)
}
