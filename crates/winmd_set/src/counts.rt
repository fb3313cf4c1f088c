//! How often each full name stands among declarations.

ghost use Rattle.std.specs.Prelude.{◌≡◌, ◌+◌, ◌-◌, ◌∷◌, ℕ, List, IfOk, OnOk, map, string_bytes, if◌then◌else◌};
ghost use Rattle.std.specs.Str.{bytes_eq};
ghost use Rattle.winmd_set.specs.Counts.{Counts, count_at, one};
ghost use Rattle.winmd_set.specs.Stated.{is_again, stated_seen};
ghost use Rattle.winmd_set.specs.declared.stated.Stated.{Stated};

use crate::stated::Stated;
use ranked::Memory;
use std::alloc::{AllocError, Global};
use std::collections::HashMap;

fn count_in(counts: &HashMap<String, u64>, text: &str) -> u64
    ensures { result ≡ count_at counts.now text.now }
{
    match counts.get(text) {
        Some(count) => *count,
        None => 0,
    }
}

fn set_count(counts: &mut HashMap<String, u64>, text: String, count: u64) -> Result<(), Memory>
    ensures { OnOk result ((other : List ℕ) → count_at counts.new other ≡ (if bytes_eq (string_bytes text) other then count else count_at counts.old other)) }
{
    counts.insert(text, count)?;
    Ok(())
}

fn put_count(
    alloc: Global,
    counts: &mut HashMap<String, u64>,
    name: &str,
    count: u64,
) -> Result<(), Memory>
    ensures { OnOk result ((other : List ℕ) → count_at counts.new other ≡ (if bytes_eq name.now other then count else count_at counts.old other)) }
{
    let text = String::from_str(alloc, name)?;
    set_count(counts, text, count)
}

// Counts a name once more. The last number of a `u64` isn't given; that is want of memory.
#[tactic(auto, using(crate::proofs::CountLaws::one_more))]
fn count_one(alloc: Global, counts: &mut HashMap<String, u64>, name: &str) -> Result<(), Memory>
    ensures { OnOk result ((text : List ℕ) → count_at counts.new text ≡ one (bytes_eq text name.now) + count_at counts.old text) }
{
    match count_in(counts, name).checked_add(1) {
        None => Err(AllocError),
        Some(count) => put_count(alloc, counts, name, count),
    }
}

/// How often the full names of declarations stand among them.
pub(crate) fn count_names(alloc: Global, list: &[Stated]) -> Result<HashMap<String, u64>, Memory>
    ensures { IfOk result (λ counts. Counts counts list.now) }
{
    let mut counts = HashMap::new(alloc);
    let mut rest = list;
    'each: while let Some((first, after)) = rest.split_first() {
        count_one(alloc, &mut counts, first.declaration.name().as_str())?;
        rest = after;
    }
    Ok(counts)
}

/// Whether a later declaration has the same full name, and the counts of the later ones.
#[tactic(auto, using(crate::proofs::CountLaws::one_less, crate::proofs::CountLaws::again_is))]
pub(crate) fn stands_again(
    alloc: Global,
    counts: &mut HashMap<String, u64>,
    stated: &Stated,
) -> Result<bool, Memory>
    ensures again { IfOk result (λ again. (rest : List Stated) → Counts counts.old (stated.now ∷ rest) → again ≡ is_again (stated_seen stated.now) (map stated_seen rest)) }
    ensures rest { OnOk result ((rest : List Stated) → Counts counts.old (stated.now ∷ rest) → Counts counts.new rest) }
{
    let name = stated.declaration.name().as_str();
    let count = count_in(counts, name).saturating_sub(1);
    put_count(alloc, counts, name, count)?;
    Ok(count > 0)
}
