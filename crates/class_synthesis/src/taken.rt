//! Names that are taken, told apart without regard to ASCII case.

ghost use Rattle.std.specs.Prelude.{◌≡◌, ◌∷◌, [], true, IfOk, OnOk};
ghost use Rattle.std.specs.HashSet.{Updates, contains_text};
ghost use Rattle.std.specs.String.{string_eq};
ghost use Rattle.placed_items.specs.Items.{written_name, written_names};
ghost use Rattle.class_synthesis.specs.Taken.{Holds, Adds, is_taken};

use found_table::is_found;
use placed_items::{PlacedItem, Written};
use std::alloc::{AllocError, Global};
use std::collections::HashSet;
use wr_base::{FullName, lowered};

fn put(taken: &mut HashSet<String>, text: String) -> Result<(), AllocError>
    ensures { OnOk result (Updates string_eq taken.old taken.new text true) }
{
    match taken.insert(text) {
        Ok(_) => Ok(()),
        Err(_) => Err(AllocError),
    }
}

fn mark(alloc: Global, taken: &mut HashSet<String>, name: &FullName) -> Result<(), AllocError>
    ensures { OnOk result (Adds (name.now ∷ []) taken.old taken.new) }
{
    let text = lowered(alloc, name.as_str())?;
    put(taken, text)
}

/// From here on these names are taken.
pub(crate) fn mark_all(
    alloc: Global,
    taken: &mut HashSet<String>,
    names: &[FullName],
) -> Result<(), AllocError>
    ensures { OnOk result (Adds names.now taken.old taken.new) }
{
    for name in names {
        mark(alloc, taken, name)?;
    }
    Ok(())
}

/// Whether a name is taken, or a found type has it.
pub(crate) fn is_taken(
    alloc: Global,
    taken: &HashSet<String>,
    name: &FullName,
) -> Result<bool, AllocError>
    ensures { IfOk result (λ b. b ≡ is_taken taken.now name.now) }
{
    let text = lowered(alloc, name.as_str())?;
    Ok(taken.contains(text.as_str()) || is_found(name.as_str()))
}

fn written_name(item: &Written) -> &FullName
    ensures { result.now ≡ written_name item.now }
{
    match item {
        Written::Done(declaration) => declaration.name(),
        Written::Class(class) => &class.name,
    }
}

/// The names that are declared.
pub(crate) fn declared(alloc: Global, items: &[PlacedItem]) -> Result<HashSet<String>, AllocError>
    ensures { IfOk result (λ taken. Holds taken (written_names items.now)) }
{
    let mut taken = HashSet::new(alloc);
    for item in items {
        mark(alloc, &mut taken, written_name(&item.item))?;
    }
    Ok(taken)
}
