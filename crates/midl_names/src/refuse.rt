//! Refusals at an item.

ghost use Rattle.std.specs.Prelude.{◌≡◌, IfOk};
ghost use Rattle.midl_names.specs.Faults.{entry_at};
ghost use Rattle.midl_names.specs.Views.{item_of};

use crate::scoped::Scoped;
use std::alloc::Global;
use wr_base::{Code, Memory, Name, Place, Refusal};

/// A refusal in the item's file.
pub(crate) fn refuse(
    alloc: Global,
    item: &Scoped,
    offset: u32,
    code: Code,
    word: &str,
) -> Result<Refusal, Memory>
    ensures { IfOk result (λ e. e ≡ entry_at (item_of item.now) offset code word.now) }
{
    let word = Name::new(String::from_str(alloc, word)?);
    Ok(Refusal {
        place: Place {
            file: item.file,
            offset,
        },
        code,
        word,
    })
}
