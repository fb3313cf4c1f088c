//! Rules on single items, and the pass over a list of them.

ghost use Rattle.std.specs.Prelude.{◌≡◌, IfOk};
ghost use Rattle.ranked.specs.First.{IsFirst, Among};

use ranked::earlier;
use std::alloc::{AllocError, Global};
use wr_base::Refusal;

/// A rule on one item.
pub trait ItemRule<X> {
    ghost use Rattle.ranked.specs.Entries.{Entry};

    // This entry is broken at the item.
    ghost broken: { Self → X → Entry → Type 0 };

    /// The first entry that is broken at the item.
    fn first_at(&self, alloc: Global, item: &X) -> Result<Option<Refusal>, AllocError>
        ensures { IfOk result (IsFirst (broken self.now item.now)) };
}

/// The first entry of a rule that is broken at any item.
pub fn first_among<X, R: ItemRule<X>>(
    alloc: Global,
    rule: &R,
    items: &[X],
) -> Result<Option<Refusal>, AllocError>
    ensures { IfOk result (IsFirst (Among items.now (R.broken rule.now))) }
{
    let mut first = None;
    for item in items {
        first = earlier(first, rule.first_at(alloc, item)?);
    }
    Ok(first)
}
