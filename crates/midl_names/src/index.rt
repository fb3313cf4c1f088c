//! The declared types by full name.

ghost use Rattle.std.specs.Prelude.{◌≡◌, ◌≤◌, ℕ, List, IfOk, OnOk, map};
ghost use Rattle.std.specs.HashMap.{get_by_text};
ghost use Rattle.wr_base.specs.Parts.{behind_last};
ghost use Rattle.midl_tree.specs.Views.{decl_view};
ghost use Rattle.midl_names.specs.Counts.{count_at};
ghost use Rattle.midl_names.specs.Lookup.{sort_of, declared_sort};
ghost use Rattle.midl_names.specs.Views.{item_of};
ghost use Rattle.midl_names.specs.Within.{IsWithin};

use crate::scoped::Scoped;
use crate::sort::Sort;
use midl_tree::DeclNode;
use std::alloc::Global;
use std::collections::HashMap;
use wr_base::Memory;

/// The sort of each declared type by its full name, and by the name behind the last dot the most bytes of a full name with it.
#[derive(Debug, Drop)]
pub(crate) struct Index {
    pub(crate) sorts: HashMap<String, Sort>,
    pub(crate) longest: HashMap<String, usize>,
    ghost within: { IsWithin (get_by_text sorts) (count_at longest) },
}

fn sort_of(tree: &DeclNode) -> Sort
    ensures { result ≡ sort_of (decl_view tree.now) }
{
    match tree {
        DeclNode::Enum(_) => Sort::Value,
        DeclNode::Struct(_) => Sort::Value,
        DeclNode::Delegate(_) => Sort::Reference,
        DeclNode::Interface(_) => Sort::Reference,
        DeclNode::Class(_) => Sort::Reference,
    }
}

/// The name behind the last dot; the whole text where it has none.
fn last_part(text: &str) -> &str
    ensures { result.now ≡ behind_last 46 text.now }
{
    match text.rsplit_once('.') {
        Some((_, part)) => part,
        None => text,
    }
}

fn length_at(longest: &HashMap<String, usize>, name: &str) -> usize
    ensures { result ≡ count_at longest.now name.now }
{
    match longest.get(name) {
        Some(length) => *length,
        None => 0,
    }
}

/// The most bytes of a declared full name that ends with the path's last name.
pub(crate) fn longest_of(index: &Index, path: &str) -> usize
    ensures value { result ≡ count_at index.now.longest (behind_last 46 path.now) }
    ensures within { IsWithin (get_by_text index.now.sorts) (count_at index.now.longest) }
{
    length_at(&index.longest, last_part(path))
}

fn note_length(
    alloc: Global,
    longest: &mut HashMap<String, usize>,
    name: &str,
    length: usize,
) -> Result<(), Memory>
    ensures holds { OnOk result (length ≤ count_at longest.new name.now) }
    ensures grows { OnOk result ((other : List ℕ) → count_at longest.old other ≤ count_at longest.new other) }
{
    if length <= length_at(longest, name) {
        return Ok(());
    }
    let key = String::from_str(alloc, name)?;
    longest.insert(key, length)?;
    Ok(())
}

/// The index of the items; where two have the same full name, the first counts.
pub(crate) fn index_of(alloc: Global, items: &[Scoped]) -> Result<Index, Memory>
    ensures { IfOk result (λ index. (name : List ℕ) → get_by_text index.sorts name ≡ declared_sort (map item_of items.now) name) }
{
    let mut sorts = HashMap::new(alloc);
    let mut longest = HashMap::new(alloc);
    let mut left = items.len();
    'more: while left > 0 {
        left -= 1;
        let item = &items[left];
        let text = item.full.as_str();
        note_length(alloc, &mut longest, last_part(text), text.len())?;
        let name = String::from_str(alloc, text)?;
        sorts.insert(name, sort_of(item.tree))?;
    }
    Ok(Index { sorts, longest })
}
