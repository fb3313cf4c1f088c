//! Items whose full name is taken, but for ASCII case.

ghost use Rattle.std.specs.Prelude.{◌≡◌, ℕ, List, true, IfOk, OnOk, Some, None, map, string_bytes, if◌then◌else◌};
ghost use Rattle.std.specs.HashSet.{contains_text};
ghost use Rattle.std.specs.Str.{bytes_eq};
ghost use Rattle.ranked.specs.First.{IsFirst, Among};
ghost use Rattle.ranked.specs.Repeats.{Repeated};
ghost use Rattle.midl_names.specs.Duplicates.{lower_name, duplicate_entry, found_again};
ghost use Rattle.midl_names.specs.Faults.{Gives};
ghost use Rattle.midl_names.specs.Views.{item_of};

use crate::paths::own_name;
use crate::refuse::refuse;
use crate::scoped::Scoped;
use found_table::is_found;
use ranked::earlier;
use std::alloc::Global;
use std::collections::HashSet;
use wr_base::{Code, Memory, Refusal, lowered};

fn lower_name(alloc: Global, item: &Scoped) -> Result<String, Memory>
    ensures { IfOk result (λ r. string_bytes r ≡ lower_name (item_of item.now)) }
{
    lowered(alloc, item.full.as_str())
}

fn refuse_if(alloc: Global, item: &Scoped, broken: bool) -> Result<Option<Refusal>, Memory>
    ensures { IfOk result (λ r. r ≡ (if broken then Some (duplicate_entry (item_of item.now)) else None)) }
{
    if !broken {
        return Ok(None);
    }
    let refusal = refuse(
        alloc,
        item,
        own_name(item.tree).offset(),
        Code::DuplicateName,
        item.full.as_str(),
    )?;
    Ok(Some(refusal))
}

/// Whether a found type has the item's full name.
pub(crate) fn found_again(alloc: Global, item: &Scoped) -> Result<Option<Refusal>, Memory>
    ensures { IfOk result (λ r. r ≡ found_again (item_of item.now)) }
{
    let broken = is_found(item.full.as_str());
    refuse_if(alloc, item, broken)
}

/// The item, where its full name was seen; its full name is then seen.
fn seen_again(
    alloc: Global,
    seen: &mut HashSet<String>,
    item: &Scoped,
) -> Result<Option<Refusal>, Memory>
    ensures again { IfOk result (λ r. r ≡ (if contains_text seen.old (lower_name (item_of item.now)) then Some (duplicate_entry (item_of item.now)) else None)) }
    ensures seen { OnOk result ((name : List ℕ) → contains_text seen.new name ≡ (if bytes_eq (lower_name (item_of item.now)) name then true else contains_text seen.old name)) }
{
    let name = lower_name(alloc, item)?;
    let added = seen.insert(name)?;
    let broken = refuse_if(alloc, item, !added)?;
    Ok(broken)
}

/// The first item whose full name an earlier one has.
#[tactic(auto, using(ranked::proofs::FirstLaws::none_below, ranked::proofs::RepeatLaws::none_seen))]
pub(crate) fn repeated_names(alloc: Global, items: &[Scoped]) -> Result<Option<Refusal>, Memory>
    ensures { IfOk result (IsFirst (Repeated lower_name duplicate_entry (map item_of items.now))) }
{
    let mut seen = HashSet::new(alloc);
    let mut first = None;
    for item in items {
        let again = seen_again(alloc, &mut seen, item)?;
        first = earlier(first, again);
    }
    Ok(first)
}
