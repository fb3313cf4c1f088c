//! The full names of TypeRefs.

ghost use Rattle.std.specs.Prelude.{◌≡◌, OnOk, IfOk, map, string_bytes};
ghost use Rattle.std.specs.BTreeSet.{IsOrdered};
ghost use Rattle.std.specs.String.{string_cmp};

use ranked::Memory;
use std::alloc::Global;
use std::collections::BTreeSet;

/// The names that are used and aren't declared, in their order.
pub(crate) fn references(alloc: Global, used: &BTreeSet<String>) -> Result<Vec<String>, Memory>
    ensures ordered { OnOk result (IsOrdered string_cmp used.now) }
    ensures refs { IfOk result (λ refs. map string_bytes refs.items ≡ map string_bytes used.now.keys) }
{
    let mut refs = Vec::new(alloc);
    for name in used {
        refs.push(String::from_str(alloc, name.as_str())?)?;
    }
    Ok(refs)
}
