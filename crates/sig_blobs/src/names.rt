//! Names of types by their tokens (ECMA-335 II.23.2.8).

ghost use Rattle.std.specs.Prelude.{◌≡◌, option_map};
ghost use Rattle.sig_blobs.specs.Given.{Gives};
ghost use Rattle.sig_blobs.specs.Tokens.{meaning_in};
ghost use Rattle.sig_blobs.specs.Uses as uses;
ghost use Rattle.wr_base.specs.Trees.{tree_of};

use crate::faults::flaw_at;
use crate::flaw::Flaw;
use crate::integers::integer;
use crate::token_names::TokenNames;
use md_schema::ImageKind;
use ranked::Stop;
use std::alloc::Global;
use wr_base::{Base, FullName, TypeUse};

/// The full name of the type that the token here stands for, and the bytes behind it.
pub(crate) fn token_name<'a, 'b>(
    names: &'a TokenNames,
    bytes: &'b [u8],
) -> Result<(&'a str, &'b [u8]), Stop<Flaw>>
    ensures { Gives (λ x. (x.0.now, x.1.now)) result (uses.token_name (meaning_in names.now) bytes.now) }
{
    let (token, rest) = integer(bytes)?;
    match names.name(token) {
        Ok(name) => Ok((name, rest)),
        Err(kind) => Err(flaw_at(kind, bytes)),
    }
}

/// A full name of two or more identifiers; the token that stands for it is at the front of these bytes.
pub(crate) fn path(alloc: Global, bytes: &[u8], name: &str) -> Result<FullName, Stop<Flaw>>
    ensures { Gives (λ x. x) result (uses.path_of bytes.now name.now) }
{
    match FullName::new(String::from_str(alloc, name)?) {
        Some(path) => Ok(path),
        None => Err(flaw_at(ImageKind::BadShape, bytes)),
    }
}

/// The use of an enum, of a struct or of `System.Guid`.
#[tactic(auto, using(wr_base::proofs::TreeLaws::tree_Plain, wr_base::proofs::TreeLaws::tree_Value))]
pub(crate) fn value(alloc: Global, bytes: &[u8], name: &str) -> Result<TypeUse, Stop<Flaw>>
    ensures { Gives tree_of result (uses.value_of bytes.now name.now) }
{
    if name == "System.Guid" {
        return Ok(TypeUse::Plain(Base::Guid));
    }
    Ok(TypeUse::Value(path(alloc, bytes, name)?))
}
