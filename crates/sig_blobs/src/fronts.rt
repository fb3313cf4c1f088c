//! The front of a use (ECMA-335 II.23.2.12).

ghost use Rattle.std.specs.Prelude.{◌≡◌, ◌∷◌};
ghost use Rattle.sig_blobs.specs.Elements as elements;
ghost use Rattle.sig_blobs.specs.Fronts.{front_of};
ghost use Rattle.sig_blobs.specs.Given.{Gives};
ghost use Rattle.sig_blobs.specs.Tokens.{meaning_in};
ghost use Rattle.sig_blobs.specs.Uses as uses;

use crate::elements::base_of;
use crate::faults::flaw_at;
use crate::flaw::Flaw;
use crate::front::Front;
use crate::integers::{byte, integer};
use crate::names::{path, token_name, value};
use crate::templates::without_count;
use crate::token_names::TokenNames;
use md_schema::ImageKind;
use ranked::Stop;
use std::alloc::Global;
use wr_base::TypeUse;

fn value_in<'b>(
    alloc: Global,
    names: &TokenNames,
    bytes: &'b [u8],
) -> Result<(Front, &'b [u8]), Stop<Flaw>>
    ensures { Gives (λ x. (front_of x.0, x.1.now)) result (uses.value_in (meaning_in names.now) bytes.now) }
{
    let (name, rest) = token_name(names, bytes)?;
    let found = value(alloc, bytes, name)?;
    Ok((Front::Alone(found), rest))
}

#[tactic(auto, using(wr_base::proofs::TreeLaws::tree_Reference))]
fn reference_in<'b>(
    alloc: Global,
    names: &TokenNames,
    bytes: &'b [u8],
) -> Result<(Front, &'b [u8]), Stop<Flaw>>
    ensures { Gives (λ x. (front_of x.0, x.1.now)) result (uses.reference_in (meaning_in names.now) bytes.now) }
{
    let (name, rest) = token_name(names, bytes)?;
    let path = path(alloc, bytes, name)?;
    Ok((Front::Alone(TypeUse::Reference(path)), rest))
}

// A template's token and the number of arguments.
fn counted_in<'b>(
    alloc: Global,
    names: &TokenNames,
    bytes: &'b [u8],
) -> Result<(Front, &'b [u8]), Stop<Flaw>>
    ensures { Gives (λ x. (front_of x.0, x.1.now)) result (uses.counted_in (meaning_in names.now) bytes.now) }
{
    let (name, behind) = token_name(names, bytes)?;
    let (count, rest) = integer(behind)?;
    let path = without_count(alloc, bytes, count, name)?;
    Ok((Front::Applied(path, count), rest))
}

fn template_in<'b>(
    alloc: Global,
    names: &TokenNames,
    bytes: &'b [u8],
) -> Result<(Front, &'b [u8]), Stop<Flaw>>
    ensures { Gives (λ x. (front_of x.0, x.1.now)) result (uses.template_in (meaning_in names.now) bytes.now) }
{
    let rest = byte(0x12, bytes)?;
    counted_in(alloc, names, rest)
}

// Why an element isn't allowed where a type stands.
fn refusal(element: u8) -> ImageKind
    ensures { result ≡ uses.refusal element }
{
    if element == 0x0C || element == 0x0D {
        ImageKind::FloatType
    } else {
        ImageKind::SigElement
    }
}

// The front behind an element that isn't a base type's; all begins with the element.
fn other_front<'b>(
    alloc: Global,
    names: &TokenNames,
    element: u8,
    bytes: &'b [u8],
    all: &[u8],
) -> Result<(Front, &'b [u8]), Stop<Flaw>>
    requires { all.now ≡ element ∷ bytes.now }
    ensures { Gives (λ x. (front_of x.0, x.1.now)) result (uses.other_front (meaning_in names.now) element bytes.now) }
{
    match element {
        0x11 => value_in(alloc, names, bytes),
        0x12 => reference_in(alloc, names, bytes),
        0x15 => template_in(alloc, names, bytes),
        _ => Err(flaw_at(refusal(element), all)),
    }
}

#[tactic(auto, using(wr_base::proofs::TreeLaws::tree_Plain))]
fn front_behind<'b>(
    alloc: Global,
    names: &TokenNames,
    element: u8,
    bytes: &'b [u8],
    all: &[u8],
) -> Result<(Front, &'b [u8]), Stop<Flaw>>
    requires { all.now ≡ element ∷ bytes.now }
    ensures { Gives (λ x. (front_of x.0, x.1.now)) result (uses.front_behind (meaning_in names.now) (elements.base_of element) element bytes.now) }
{
    match base_of(element) {
        Some(base) => Ok((Front::Alone(TypeUse::Plain(base)), bytes)),
        None => other_front(alloc, names, element, bytes, all),
    }
}

/// The front of a use, and the bytes behind it.
pub(crate) fn front_at<'b>(
    alloc: Global,
    names: &TokenNames,
    bytes: &'b [u8],
) -> Result<(Front, &'b [u8]), Stop<Flaw>>
    ensures { Gives (λ x. (front_of x.0, x.1.now)) result (uses.front_at (meaning_in names.now) bytes.now) }
{
    match bytes.split_first() {
        None => Err(flaw_at(ImageKind::SigShort, bytes)),
        Some((element, rest)) => front_behind(alloc, names, *element, rest, bytes),
    }
}
