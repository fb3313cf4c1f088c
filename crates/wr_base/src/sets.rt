//! Lists in the order of a text, each text once.

ghost use Rattle.std.specs.Prelude.{◌≡◌, ◌++◌, IfOk, OnOk, List, ℕ, map as list_map, string_bytes};
ghost use Rattle.std.specs.Ordering.{nat_cmp};
ghost use Rattle.std.specs.Cmp.Lexicographic.{slice_cmp};
ghost use Rattle.std.specs.FinMap as map;
ghost use Rattle.std.specs.BTreeMap.{insert_entry};
ghost use Rattle.std.specs.String.{string_cmp};
ghost use Rattle.wr_base.specs.Sets.{keyed, set_by, by_bytes};
ghost use Rattle.wr_base.specs.Normal.{names_in_order};
ghost use Rattle.wr_base.specs.Uses.{text_of};

use crate::{FullName, FullNames, Listed, TypeUse, UseId, Uses};
use sqlite_items::Items;
use std::alloc::{AllocError, Global};
use std::collections::BTreeMap;

/// A value that lists put in the order of a text.
pub trait Keyed {
    ghost key: { Self → List ℕ };

    /// Puts the text behind what is there.
    fn push_key(&self, text: &mut String) -> Result<(), AllocError>
        ensures { OnOk result (string_bytes text.new ≡ string_bytes text.old ++ key self.now) };
}

impl Keyed for FullName {
    ghost key = { λ n. n };

    fn push_key(&self, text: &mut String) -> Result<(), AllocError> {
        text.push_str(self.as_str())
    }
}

impl Keyed for UseId {
    ghost use Rattle.wr_base.specs.Ids.{id_text};

    ghost key = { id_text };

    fn push_key(&self, text: &mut String) -> Result<(), AllocError> {
        text.push_str(self.text.as_str())
    }
}

impl Keyed for TypeUse {
    ghost key = { text_of };

    fn push_key(&self, text: &mut String) -> Result<(), AllocError> {
        self.push_text(text)
    }
}

fn put<T: Drop>(found: &mut BTreeMap<String, T>, key: String, item: T) -> Result<(), AllocError>
    ensures { OnOk result (found.new.entries ≡ insert_entry string_cmp found.old.entries key item) }
{
    match found.insert(key, item) {
        Ok(_) => Ok(()),
        Err(_) => Err(AllocError),
    }
}

// From the last item to the first, so that the first of those with one key stays.
fn by_key<T: Keyed + Drop>(
    alloc: Global,
    items: Items<T>,
) -> Result<BTreeMap<String, T>, AllocError>
    ensures { IfOk result (λ found. by_bytes found.entries ≡ map.entries (map.from_entries {R = slice_cmp nat_cmp} (keyed T.key items))) }
{
    let mut rest = items;
    let mut found = BTreeMap::new(alloc);
    while let Some(item) = rest.pop() {
        let mut text = String::new(alloc);
        item.push_key(&mut text)?;
        put(&mut found, text, item)?;
    }
    Ok(found)
}

fn values_of<T: Drop>(alloc: Global, found: BTreeMap<String, T>) -> Result<Vec<T>, AllocError>
    ensures { IfOk result (λ set. set.items ≡ list_map (λ e. e.1) found.entries) }
{
    let mut rest = found;
    let mut set = Vec::new(alloc);
    while let Some((_, item)) = rest.pop_first() {
        set.push(item)?;
    }
    Ok(set)
}

/// The items in the order of their texts, each text once.
pub fn in_order<T: Keyed + Drop>(alloc: Global, items: Items<T>) -> Result<Vec<T>, AllocError>
    ensures { IfOk result (λ set. set.items ≡ set_by T.key items) }
{
    let found = by_key(alloc, items)?;
    let set = values_of(alloc, found)?;
    Ok(set)
}

/// Type uses in the order of their texts, each text once.
pub(crate) fn uses_in_order(alloc: Global, uses: Uses) -> Result<Uses, AllocError>
    ensures { IfOk result (λ set. set ≡ set_by text_of uses) }
{
    Ok(Items::from_vec(in_order(alloc, uses)?))
}

/// Full names in the order of bytes, each once.
pub(crate) fn names_by_bytes(alloc: Global, names: FullNames) -> Result<FullNames, AllocError>
    ensures { IfOk result (λ set. set ≡ names_in_order names) }
{
    let items = Items::from_vec(names.into_vec());
    Ok(Listed::from_vec(in_order(alloc, items)?))
}
