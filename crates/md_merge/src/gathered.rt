//! The declarations of all sets in the order of their full names.

ghost use Rattle.std.specs.Prelude.{◌≡◌, ◌++◌, IfOk, OnOk};
ghost use Rattle.std.specs.Ordering.{nat_cmp};
ghost use Rattle.std.specs.List.Sorted.{IsPermutation, IsSortedByKey};
ghost use Rattle.std.specs.Cmp.Lexicographic.{slice_cmp};
ghost use Rattle.wr_base.specs.Declarations.{name_of};
ghost use Rattle.md_merge.specs.Unions.{all_of};

use std::alloc::{AllocError, Global};
use wr_base::{Declaration, Types};

// Copies of the declarations of a set behind what is there.
fn push_all(list: &mut Vec<Declaration>, types: &Types) -> Result<(), AllocError>
    ensures { OnOk result (list.new.items ≡ list.old.items ++ types.now) }
{
    for i in 0..types.len() {
        list.push(types.at(i).clone()?)?;
    }
    Ok(())
}

fn all_of(alloc: Global, sets: &[Types]) -> Result<Vec<Declaration>, AllocError>
    ensures { IfOk result (λ all. all.items ≡ all_of sets.now) }
{
    let mut all = Vec::new(alloc);
    for types in sets {
        push_all(&mut all, types)?;
    }
    Ok(all)
}

fn sort_by_name(list: &mut Vec<Declaration>) -> Result<(), AllocError>
    ensures permutation { IsPermutation list.old.items list.new.items }
    ensures sorted { OnOk result (IsSortedByKey name_of (slice_cmp nat_cmp) list.new.items) }
{
    list.sort_by(|a, b| a.name().as_str().cmp(b.name().as_str()))?;
    Ok(())
}

/// Copies of all declarations, in the order of their full names.
pub(crate) fn gathered(alloc: Global, sets: &[Types]) -> Result<Vec<Declaration>, AllocError>
    ensures permutation { IfOk result (λ all. IsPermutation (all_of sets.now) all.items) }
    ensures sorted { IfOk result (λ all. IsSortedByKey name_of (slice_cmp nat_cmp) all.items) }
{
    let mut all = all_of(alloc, sets)?;
    sort_by_name(&mut all)?;
    Ok(all)
}
