//! One declaration of each name, in the order of full names.

ghost use Rattle.std.specs.Prelude.{◌≡◌, ◌<◌, ◌^◌, IfOk, IfErr, OnOk, length, map};
ghost use Rattle.std.specs.List.{All};
ghost use Rattle.wr_base.specs.Declarations.{IsInOrder};
ghost use Rattle.wr_base.specs.Normal.{normal};
ghost use Rattle.wr_base.specs.Places.{total};
ghost use Rattle.md_merge.specs.Neighbours.{ends_with, put, firsts, ListAgrees, ListDiffers};
ghost use Rattle.md_merge.specs.Unions.{all_of, IsNormal, IsUnion, LeastConflict, OnRefused};

use crate::conflicts::first_conflict;
use crate::gathered::gathered;
use std::alloc::{AllocError, Global};
use wr_base::{Declaration, FullName, Memory, Stop, Types};

fn ends_with(list: &[Declaration], name: &FullName) -> bool
    ensures { result ≡ ends_with list.now name.now }
{
    match list.last() {
        None => false,
        Some(last) => *last.name() == *name,
    }
}

fn put(list: &mut Vec<Declaration>, declaration: Declaration) -> Result<(), AllocError>
    ensures { OnOk result (list.new.items ≡ put list.old.items declaration) }
{
    if ends_with(list.as_slice(), declaration.name()) {
        return Ok(());
    }
    list.push(declaration)?;
    Ok(())
}

// One declaration of each name, of a list in the order of names.
fn firsts(alloc: Global, list: Vec<Declaration>) -> Result<Vec<Declaration>, AllocError>
    ensures { IfOk result (λ done. done.items ≡ firsts list.items) }
{
    let mut done = Vec::new(alloc);
    for declaration in list {
        put(&mut done, declaration)?;
    }
    Ok(done)
}

fn types_of(alloc: Global, declarations: Vec<Declaration>) -> Result<Types, Memory>
    requires order { IsInOrder declarations.items }
    requires normal { All IsNormal declarations.items }
    ensures { IfOk result (λ types. types ≡ declarations.items) }
{
    match Types::from_list(alloc, declarations) {
        Ok(types) => Ok(types),
        Err(Stop::Memory) => Err(AllocError),
        Err(Stop::Refused(_)) => unreachable!(),
    }
}

// Refused is the name of the first declaration that differs from the next one.
fn check_apart(list: &[Declaration]) -> Result<(), Stop<FullName>>
    ensures ok { OnOk result (ListAgrees list.now) }
    ensures refused { IfErr result (OnRefused (ListDiffers list.now)) }
{
    match first_conflict(list) {
        None => Ok(()),
        Some(found) => Err(Stop::Refused(found.name().clone()?)),
    }
}

/// The union of sets. Refused is the least full name of which two declarations differ.
pub(crate) fn united(alloc: Global, sets: &[Types]) -> Result<Types, Stop<FullName>>
    requires normal { All (All IsNormal) sets.now }
    requires few { total (all_of sets.now) < 2 ^ 32 }
    ensures ok { IfOk result (IsUnion sets.now) }
    ensures small { IfOk result (λ types. total types < 2 ^ 32) }
    ensures refused { IfErr result (OnRefused (LeastConflict sets.now)) }
{
    let list = gathered(alloc, sets)?;
    check_apart(list.as_slice())?;
    let kept = firsts(alloc, list)?;
    Ok(types_of(alloc, kept)?)
}
