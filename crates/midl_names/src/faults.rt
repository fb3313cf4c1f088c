//! The first entry that is broken in the phase of names.

ghost use Rattle.std.specs.Prelude.{◌≡◌, ℕ, List, IfOk, map};
ghost use Rattle.std.specs.HashMap.{get_by_text};
ghost use Rattle.ranked.specs.First.{IsFirst, Among};
ghost use Rattle.midl_names.specs.Lookup.{declared_sort};
ghost use Rattle.midl_names.specs.Names.{Broken, NameFaults, DoubledFaults, WrittenFaults, UnfitFaults, ItemFaults};
ghost use Rattle.midl_names.specs.Views.{item_of};

use crate::attributes::{repeated, unfits};
use crate::constructors::{doubled_in, misnamed_in};
use crate::duplicates::{found_again, repeated_names};
use crate::index::Index;
use crate::scoped::Scoped;
use crate::use_faults::use_faults;
use ranked::earlier;
use std::alloc::Global;
use wr_base::{Memory, Refusal};

fn name_faults(alloc: Global, index: &Index, item: &Scoped) -> Result<Option<Refusal>, Memory>
    ensures { IfOk result (IsFirst (NameFaults (get_by_text index.now.sorts) (item_of item.now))) }
{
    let found = found_again(alloc, item)?;
    let uses = use_faults(alloc, index, item)?;
    Ok(earlier(found, uses))
}

fn doubled_faults(alloc: Global, index: &Index, item: &Scoped) -> Result<Option<Refusal>, Memory>
    ensures { IfOk result (IsFirst (DoubledFaults (get_by_text index.now.sorts) (item_of item.now))) }
{
    let doubled = doubled_in(alloc, item)?;
    let names = name_faults(alloc, index, item)?;
    Ok(earlier(doubled, names))
}

fn written_faults(alloc: Global, index: &Index, item: &Scoped) -> Result<Option<Refusal>, Memory>
    ensures { IfOk result (IsFirst (WrittenFaults (get_by_text index.now.sorts) (item_of item.now))) }
{
    let misnamed = misnamed_in(alloc, item)?;
    let others = doubled_faults(alloc, index, item)?;
    Ok(earlier(misnamed, others))
}

fn unfit_faults(alloc: Global, index: &Index, item: &Scoped) -> Result<Option<Refusal>, Memory>
    ensures { IfOk result (IsFirst (UnfitFaults (get_by_text index.now.sorts) (item_of item.now))) }
{
    let unfit = unfits(alloc, item)?;
    let written = written_faults(alloc, index, item)?;
    Ok(earlier(unfit, written))
}

fn item_faults(alloc: Global, index: &Index, item: &Scoped) -> Result<Option<Refusal>, Memory>
    ensures { IfOk result (IsFirst (ItemFaults (get_by_text index.now.sorts) (item_of item.now))) }
{
    let again = repeated(alloc, item)?;
    let others = unfit_faults(alloc, index, item)?;
    Ok(earlier(again, others))
}

fn all_item_faults(
    alloc: Global,
    index: &Index,
    items: &[Scoped],
) -> Result<Option<Refusal>, Memory>
    ensures { IfOk result (IsFirst (Among (map item_of items.now) (ItemFaults (get_by_text index.now.sorts)))) }
{
    let mut first = None;
    for item in items {
        first = earlier(first, item_faults(alloc, index, item)?);
    }
    Ok(first)
}

/// The first entry that is broken, where the index is the one of the items.
pub(crate) fn faults(
    alloc: Global,
    index: &Index,
    items: &[Scoped],
) -> Result<Option<Refusal>, Memory>
    requires { (name : List ℕ) → get_by_text index.now.sorts name ≡ declared_sort (map item_of items.now) name }
    ensures { IfOk result (IsFirst (Broken (map item_of items.now))) }
{
    let repeated = repeated_names(alloc, items)?;
    let others = all_item_faults(alloc, index, items)?;
    Ok(earlier(repeated, others))
}
