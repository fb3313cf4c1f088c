//! Ids that are taken.

ghost use Rattle.std.specs.Prelude.{◌≡◌, ◌≢◌, ◌↔◌, ◌⊎◌, ℕ, Some, IsTrue, IfOk, length};
ghost use Rattle.id_table.specs.Taken.{owner, One, Taken, IsPlain, AreTaken, lists_of};

use std::alloc::{AllocError, Global};
use std::collections::HashMap;

// Whether another text has the id; where none has it, this text does.
fn take(owners: &mut HashMap<u128, u32>, text: u32, id: u128) -> Result<bool, AllocError>
    ensures { IfOk result (λ other. One (owner owners.old) (owner owners.new) text id other) }
{
    match owners.get(&id) {
        Some(first) => Ok(*first != text),
        None => match owners.insert(id, text) {
            Ok(_) => Ok(false),
            Err(_) => Err(AllocError),
        },
    }
}

/// Takes the ids of the texts that stand at one place, and tells whether one of them is another text's that stands there or earlier.
pub fn take_all(owners: &mut HashMap<u128, u32>, items: &[(u32, u128)]) -> Result<bool, AllocError>
    ensures { IfOk result (λ taken. Taken (owner owners.old) (owner owners.new) items.now taken) }
{
    let mut taken = false;
    for item in items {
        let (text, id) = *item;
        let other = take(owners, text, id)?;
        taken = either(taken, other);
    }
    Ok(taken)
}

fn either(a: bool, b: bool) -> bool
    ensures { IsTrue result ↔ (IsTrue a ⊎ IsTrue b) }
{
    a || b
}

/// Whether an id of what stands at a place is an owner's from before, or that of another text that stands no later, of each place.
pub fn taken_at(
    alloc: Global,
    owners: &mut HashMap<u128, u32>,
    places: &[Vec<(u32, u128)>],
) -> Result<Vec<bool>, AllocError>
    requires plain { IsPlain (owner owners.old) (lists_of places.now) }
    ensures { IfOk result (λ on. AreTaken (owner owners.old) (lists_of places.now) (length places.now) on.items) }
{
    let mut on = Vec::new(alloc);
    for i in 0..places.len() {
        let taken = take_all(owners, places[i].as_slice())?;
        on.push(taken)?;
    }
    Ok(on)
}
