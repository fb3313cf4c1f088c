//! The first interface that is made of a class and whose name is taken.

ghost use Rattle.std.specs.Prelude.{◌≡◌, IfOk, OnOk, IsTrue, Some, None, if◌then◌else◌};
ghost use Rattle.ranked.specs.First.{IsFirst, Among, Only};
ghost use Rattle.made_interfaces.specs.Made.{made_by};
ghost use Rattle.class_synthesis.specs.Clashes.{clash_entry, IsClash};
ghost use Rattle.class_synthesis.specs.Taken.{Adds, is_taken};

use crate::taken::{declared, is_taken, mark_all};
use made_interfaces::made_by;
use placed_items::PlacedItem;
use ranked::earlier;
use std::alloc::Global;
use std::collections::HashSet;
use wr_base::{Code, FullName, Memory, Name, Place, Refusal};

fn refusal(alloc: Global, at: Place, name: &FullName) -> Result<Refusal, Memory>
    ensures { IfOk result (λ e. e ≡ clash_entry at name.now) }
{
    let word = Name::new(String::from_str(alloc, name.as_str())?);
    Ok(Refusal {
        place: at,
        code: Code::SynthesisClash,
        word,
    })
}

fn clash_of(
    alloc: Global,
    taken: &HashSet<String>,
    at: Place,
    name: &FullName,
) -> Result<Option<Refusal>, Memory>
    ensures { IfOk result (λ r. r ≡ (if is_taken taken.now name.now then Some (clash_entry at name.now) else None)) }
{
    if is_taken(alloc, taken, name)? {
        return Ok(Some(refusal(alloc, at, name)?));
    }
    Ok(None)
}

// The first of these names that is taken.
fn clash_among(
    alloc: Global,
    taken: &HashSet<String>,
    at: Place,
    names: &[FullName],
) -> Result<Option<Refusal>, Memory>
    ensures { IfOk result (IsFirst (Among names.now (λ name. Only (IsTrue (is_taken taken.now name)) (clash_entry at name)))) }
{
    let mut first = None;
    for name in names {
        first = earlier(first, clash_of(alloc, taken, at, name)?);
    }
    Ok(first)
}

// The first name that the item makes and that is taken; from here on all that it makes are taken.
fn clash_at(
    alloc: Global,
    taken: &mut HashSet<String>,
    item: &PlacedItem,
) -> Result<Option<Refusal>, Memory>
    ensures first { IfOk result (IsFirst (Among (made_by item.now.item) (λ name. Only (IsTrue (is_taken taken.old name)) (clash_entry item.now.places.at name)))) }
    ensures marked { OnOk result (Adds (made_by item.now.item) taken.old taken.new) }
{
    let names = made_by(alloc, &item.item)?;
    let first = clash_among(alloc, taken, item.places.at, &names)?;
    mark_all(alloc, taken, &names)?;
    Ok(first)
}

/// The first clash.
pub(crate) fn clash(alloc: Global, items: &[PlacedItem]) -> Result<Option<Refusal>, Memory>
    ensures { IfOk result (IsFirst (IsClash items.now)) }
{
    let mut taken = declared(alloc, items)?;
    let mut first = None;
    for item in items {
        first = earlier(first, clash_at(alloc, &mut taken, item)?);
    }
    Ok(first)
}
