//! Results and parameters of methods (ECMA-335 II.23.2.10, II.23.2.11).

ghost use Rattle.std.specs.Prelude.{◌≡◌, ◌==◌, ◌∷◌, map, option_map, if◌then◌else◌};
ghost use Rattle.sig_blobs.specs.Given.{Gives};
ghost use Rattle.sig_blobs.specs.Reading.{several};
ghost use Rattle.sig_blobs.specs.Signatures as signatures;
ghost use Rattle.sig_blobs.specs.Tokens.{meaning_in};
ghost use Rattle.wr_base.specs.Trees.{tree_of, param_tree, signature_tree};

use crate::faults::flaw_at;
use crate::flaw::Flaw;
use crate::modifiers::unmodified;
use crate::token_names::TokenNames;
use crate::uses::use_at;
use md_schema::ImageKind;
use ranked::{Name, Stop};
use std::alloc::Global;
use wr_base::{Param, Params, Signature, TypeUse};

// A type, or VOID.
fn type_or_void<'b>(
    alloc: Global,
    names: &TokenNames,
    bytes: &'b [u8],
) -> Result<(Option<TypeUse>, &'b [u8]), Stop<Flaw>>
    ensures { Gives (λ x. (option_map tree_of x.0, x.1.now)) result (signatures.type_or_void (meaning_in names.now) bytes.now) }
{
    match bytes.split_first() {
        None => Err(flaw_at(ImageKind::SigShort, bytes)),
        Some((0x01, rest)) => Ok((None, rest)),
        Some(_) => {
            let (found, rest) = use_at(alloc, names, bytes)?;
            Ok((Some(found), rest))
        }
    }
}

fn result_in<'b>(
    alloc: Global,
    names: &TokenNames,
    bytes: &'b [u8],
) -> Result<(Option<TypeUse>, &'b [u8]), Stop<Flaw>>
    ensures { Gives (λ x. (option_map tree_of x.0, x.1.now)) result (signatures.result_in (meaning_in names.now) bytes.now) }
{
    let rest = unmodified(bytes)?;
    type_or_void(alloc, names, rest)
}

// One parameter, out or in, whose type is at the front.
fn param_of_type<'b>(
    alloc: Global,
    names: &TokenNames,
    out: bool,
    bytes: &'b [u8],
) -> Result<(Param, &'b [u8]), Stop<Flaw>>
    ensures { Gives (λ x. (param_tree x.0, x.1.now)) result (signatures.param_of_type (meaning_in names.now) out bytes.now) }
{
    let (ty, rest) = use_at(alloc, names, bytes)?;
    let param = Param {
        name: Name::empty(alloc),
        out,
        ty,
    };
    Ok((param, rest))
}

// A parameter, behind BYREF where it is out.
fn param_behind<'b>(
    alloc: Global,
    names: &TokenNames,
    bytes: &'b [u8],
) -> Result<(Param, &'b [u8]), Stop<Flaw>>
    ensures { Gives (λ x. (param_tree x.0, x.1.now)) result (signatures.param_behind (meaning_in names.now) bytes.now) }
{
    match bytes.split_first() {
        None => Err(flaw_at(ImageKind::SigShort, bytes)),
        Some((0x10, rest)) => param_of_type(alloc, names, true, rest),
        Some(_) => param_of_type(alloc, names, false, bytes),
    }
}

fn param_in<'b>(
    alloc: Global,
    names: &TokenNames,
    bytes: &'b [u8],
) -> Result<(Param, &'b [u8]), Stop<Flaw>>
    ensures { Gives (λ x. (param_tree x.0, x.1.now)) result (signatures.param_in (meaning_in names.now) bytes.now) }
{
    let rest = unmodified(bytes)?;
    param_behind(alloc, names, rest)
}

// So many parameters.
fn params_in<'b>(
    alloc: Global,
    names: &TokenNames,
    count: u32,
    bytes: &'b [u8],
) -> Result<(Params, &'b [u8]), Stop<Flaw>>
    ensures { Gives (λ x. (map param_tree x.0, x.1.now)) result (several (signatures.param_in (meaning_in names.now)) count bytes.now) }
{
    let mut list = Params::new(alloc);
    let mut rest = bytes;
    for i in 0..count {
        let (param, behind) = param_in(alloc, names, rest)?;
        list.push(param)?;
        rest = behind;
    }
    Ok((list, rest))
}

// So many parameters, and nothing behind them.
fn params_alone(
    alloc: Global,
    names: &TokenNames,
    count: u32,
    bytes: &[u8],
) -> Result<Params, Stop<Flaw>>
    ensures { Gives (λ x. map param_tree x) result (signatures.params_alone (meaning_in names.now) count bytes.now) }
{
    let (params, rest) = params_in(alloc, names, count, bytes)?;
    if rest.is_empty() {
        Ok(params)
    } else {
        Err(flaw_at(ImageKind::SigTail, rest))
    }
}

/// A result and so many parameters, and nothing behind them.
pub(crate) fn signature_in(
    alloc: Global,
    names: &TokenNames,
    count: u32,
    bytes: &[u8],
) -> Result<Signature, Stop<Flaw>>
    ensures { Gives signature_tree result (signatures.signature_in (meaning_in names.now) count bytes.now) }
{
    let (result, rest) = result_in(alloc, names, bytes)?;
    let params = params_alone(alloc, names, count, rest)?;
    Ok(Signature { params, result })
}
