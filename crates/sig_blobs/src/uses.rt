//! Type uses (ECMA-335 II.23.2.12).

ghost use Rattle.std.specs.Prelude.{◌≡◌, map};
ghost use Rattle.sig_blobs.specs.Fronts.{front_of};
ghost use Rattle.sig_blobs.specs.Given.{Gives};
ghost use Rattle.sig_blobs.specs.Reading.{several};
ghost use Rattle.sig_blobs.specs.Tokens.{meaning_in};
ghost use Rattle.wr_base.specs.Trees.{tree_of};
ghost use Rattle.sig_blobs.specs.Uses as uses;

use crate::faults::flaw_at;
use crate::flaw::Flaw;
use crate::front::Front;
use crate::fronts::front_at;
use crate::modifiers::unmodified;
use crate::token_names::TokenNames;
use md_schema::ImageKind;
use ranked::Stop;
use std::alloc::Global;
use wr_base::{TypeUse, Uses};

// So many uses, each at most so deep.
#[cycle(types)]
fn arguments<'b>(
    alloc: Global,
    names: &TokenNames,
    depth: u32,
    count: u32,
    bytes: &'b [u8],
) -> Result<(Uses, &'b [u8]), Stop<Flaw>>
    ensures { Gives (λ x. (map tree_of x.0, x.1.now)) result (several (uses.use_within depth (meaning_in names.now)) count bytes.now) }
{
    let mut list = Uses::new(alloc);
    let mut rest = bytes;
    for i in 0..count {
        let (argument, behind) = use_within(alloc, names, depth, rest)?;
        list.push(argument)?;
        rest = behind;
    }
    Ok((list, rest))
}

// A use, whose front is read.
#[cycle(types)]
#[tactic(auto, using(wr_base::proofs::TreeLaws::tree_Inst))]
fn completed<'b>(
    alloc: Global,
    names: &TokenNames,
    depth: u32,
    front: Front,
    bytes: &'b [u8],
) -> Result<(TypeUse, &'b [u8]), Stop<Flaw>>
    ensures { Gives (λ x. (tree_of x.0, x.1.now)) result (uses.completed (uses.use_within depth (meaning_in names.now)) (front_of front) bytes.now) }
{
    match front {
        Front::Alone(found) => Ok((found, bytes)),
        Front::Applied(name, count) => {
            let (list, rest) = arguments(alloc, names, depth, count, bytes)?;
            Ok((TypeUse::Inst(name, list), rest))
        }
    }
}

/// A use that is at most so deep, and the bytes behind it.
#[cycle(types)]
#[tactic(auto, unfolding(crate::specs::Uses::use_within))]
pub(crate) fn use_within<'b>(
    alloc: Global,
    names: &TokenNames,
    depth: u32,
    bytes: &'b [u8],
) -> Result<(TypeUse, &'b [u8]), Stop<Flaw>>
    ensures { Gives (λ x. (tree_of x.0, x.1.now)) result (uses.use_within depth (meaning_in names.now) bytes.now) }
{
    if depth == 0 {
        return Err(flaw_at(ImageKind::SigDeep, bytes));
    }
    let rest = unmodified(bytes)?;
    let (front, behind) = front_at(alloc, names, rest)?;
    completed(alloc, names, depth - 1, front, behind)
}

/// A use, and the bytes behind it.
pub(crate) fn use_at<'b>(
    alloc: Global,
    names: &TokenNames,
    bytes: &'b [u8],
) -> Result<(TypeUse, &'b [u8]), Stop<Flaw>>
    ensures { Gives (λ x. (tree_of x.0, x.1.now)) result (uses.use_at (meaning_in names.now) bytes.now) }
{
    use_within(alloc, names, 16, bytes)
}
