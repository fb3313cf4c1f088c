//! How often each name stands among those of earlier methods.

ghost use Rattle.std.specs.Prelude.{◌≡◌, ◌+◌, ◌++◌, ℕ, List, IfOk, OnOk, string_bytes, if◌then◌else◌};
ghost use Rattle.std.specs.Str.{bytes_eq};
ghost use Rattle.sig_blobs.specs.Templates.{decimal_of};
ghost use Rattle.winmd_members.specs.Earlier.{Counts, count_at};
ghost use Rattle.winmd_sets.specs.Interfaces.{numbered_name};
ghost use Rattle.winmd_sets.specs.Members.{method_names};
ghost use Rattle.wr_base.specs.Trees.{member_tree};

use ranked::Memory;
use std::alloc::{AllocError, Global};
use std::collections::BTreeMap;
use wr_base::Member;

/// How often a name was there before.
pub(crate) fn count_in(counts: &BTreeMap<String, u64>, text: &str) -> u64
    ensures { result ≡ count_at counts.now text.now }
{
    match counts.get(text) {
        Some(count) => *count,
        None => 0,
    }
}

fn set_count(counts: &mut BTreeMap<String, u64>, text: String, count: u64) -> Result<(), Memory>
    ensures { OnOk result ((other : List ℕ) → count_at counts.new other ≡ (if bytes_eq (string_bytes text) other then count else count_at counts.old other)) }
{
    counts.insert(text, count)?;
    Ok(())
}

/// Counts a name once more. The last number of a `u64` isn't given; that is want of memory.
fn count_one(alloc: Global, counts: &mut BTreeMap<String, u64>, name: &str) -> Result<(), Memory>
    ensures { OnOk result ((other : List ℕ) → count_at counts.new other ≡ (if bytes_eq name.now other then count_at counts.old name.now + 1 else count_at counts.old other)) }
{
    match count_in(counts, name).checked_add(1) {
        None => Err(AllocError),
        Some(count) => {
            let text = String::from_str(alloc, name)?;
            set_count(counts, text, count)
        }
    }
}

/// Counts a member's name, where it is a method.
#[tactic(auto, using(crate::proofs::EarlierLaws::counted))]
pub(crate) fn note(
    alloc: Global,
    counts: &mut BTreeMap<String, u64>,
    member: &Member,
) -> Result<(), Memory>
    ensures { OnOk result ((earlier : List (List ℕ)) → Counts counts.old earlier → Counts counts.new (method_names (member_tree member.now) ++ earlier)) }
{
    match member {
        Member::Method { name, .. } => count_one(alloc, counts, name.as_str()),
        _ => Ok(()),
    }
}

#[tactic(auto, using(sig_blobs::proofs::TemplateLaws::decimal_is))]
fn decimal(alloc: Global, number: u64) -> Result<String, Memory>
    ensures { IfOk result (λ text. string_bytes text ≡ decimal_of number) }
{
    format!(in alloc; "{number}")
}

fn with_number(alloc: Global, name: &str, number: u64) -> Result<String, Memory>
    ensures { IfOk result (λ text. string_bytes text ≡ name.now ++ decimal_of number) }
{
    let mut text = String::from_str(alloc, name)?;
    let end = decimal(alloc, number)?;
    text.push_str(end.as_str())?;
    Ok(text)
}

/// The name in the ABI of the method behind so many of its name. The last number of a `u64` isn't given; that is want of memory.
#[tactic(auto, using(crate::proofs::EarlierLaws::numbered))]
pub(crate) fn numbered_name(alloc: Global, name: &str, before: u64) -> Result<String, Memory>
    ensures { IfOk result (λ text. string_bytes text ≡ numbered_name name.now before) }
{
    if before == 0 {
        return String::from_str(alloc, name);
    }
    match before.checked_add(1) {
        None => Err(AllocError),
        Some(number) => with_number(alloc, name, number),
    }
}
