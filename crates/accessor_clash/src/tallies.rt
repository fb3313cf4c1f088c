//! How many members have each ABI name, and each name.

ghost use Rattle.std.specs.Prelude.{◌≡◌, ◌&&◌, ◌+◌, ℕ, List, IfOk, count_by, nat_lt};
ghost use Rattle.std.specs.Str.{bytes_eq};
ghost use Rattle.wr_rules.specs.Members.{member_name, abi_names};
ghost use Rattle.wr_base.specs.Lower.{lower};
ghost use Rattle.member_counts.specs.Tallies.{count_at};
ghost use Rattle.accessor_clash.specs.AbiCounts.{abi_count, has_lower, is_own, is_shared};

use crate::names::{First, Own, Second};
use member_counts::{Lower, count_in, tally_of};
use site_parts::Standing;
use std::alloc::{AllocError, Global};
use std::collections::BTreeMap;
use wr_base::Member;

/// How many members have an ABI name as their first one, and as their second.
#[derive(Drop)]
pub(crate) struct AbiMaps {
    pub(crate) firsts: BTreeMap<String, usize>,
    pub(crate) seconds: BTreeMap<String, usize>,
}

/// How many members have a name, and how many of them have it as ABI name too.
#[derive(Drop)]
pub(crate) struct NameMaps {
    pub(crate) named: BTreeMap<String, usize>,
    pub(crate) owns: BTreeMap<String, usize>,
}

/// Members by ABI names and by names.
#[derive(Drop)]
pub(crate) struct AbiTallies {
    pub(crate) abis: AbiMaps,
    pub(crate) names: NameMaps,
}

// Whether two numbers make more than this one; their sum may be none of the type.
fn makes_more(few: usize, first: usize, second: usize) -> bool
    ensures { result ≡ nat_lt few (first + second) }
{
    if few < first {
        true
    } else {
        few - first < second
    }
}

/// Whether the text is the ABI name of two members, or the name of members of another name than this one.
pub(crate) fn is_shared(tallies: &AbiTallies, own: &str, text: &str) -> bool
    ensures { result ≡ is_shared (abi_count tallies.now.abis) (count_at tallies.now.names.named) own.now text.now }
{
    makes_more(
        1,
        count_in(&tallies.abis.firsts, text),
        count_in(&tallies.abis.seconds, text),
    ) || (text != own && 0 < count_in(&tallies.names.named, text))
}

/// Whether more members have the name as ABI name than those that are named so.
pub(crate) fn is_taken(tallies: &AbiTallies, own: &str) -> bool
    ensures { result ≡ nat_lt (count_at tallies.now.names.owns own.now) (abi_count tallies.now.abis own.now) }
{
    makes_more(
        count_in(&tallies.names.owns, own),
        count_in(&tallies.abis.firsts, own),
        count_in(&tallies.abis.seconds, own),
    )
}

fn abis_of(alloc: Global, members: &[Standing<Member>]) -> Result<AbiMaps, AllocError>
    ensures { IfOk result (λ maps. (text : List ℕ) → abi_count maps text ≡ count_by (λ m. has_lower (abi_names m.part) text) members.now) }
{
    let firsts = tally_of(alloc, &First, members)?;
    let seconds = tally_of(alloc, &Second, members)?;
    Ok(AbiMaps { firsts, seconds })
}

fn names_of(alloc: Global, members: &[Standing<Member>]) -> Result<NameMaps, AllocError>
    ensures named { IfOk result (λ maps. (text : List ℕ) → count_at maps.named text ≡ count_by (λ m. bytes_eq (lower (member_name m.part)) text) members.now) }
    ensures owns { IfOk result (λ maps. (text : List ℕ) → count_at maps.owns text ≡ count_by (λ m. is_own m.part && bytes_eq (lower (member_name m.part)) text) members.now) }
{
    let named = tally_of(alloc, &Lower, members)?;
    let owns = tally_of(alloc, &Own, members)?;
    Ok(NameMaps { named, owns })
}

pub(crate) fn tallies_of(
    alloc: Global,
    members: &[Standing<Member>],
) -> Result<AbiTallies, AllocError>
    ensures abis { IfOk result (λ tallies. (text : List ℕ) → abi_count tallies.abis text ≡ count_by (λ m. has_lower (abi_names m.part) text) members.now) }
    ensures named { IfOk result (λ tallies. (text : List ℕ) → count_at tallies.names.named text ≡ count_by (λ m. bytes_eq (lower (member_name m.part)) text) members.now) }
    ensures owns { IfOk result (λ tallies. (text : List ℕ) → count_at tallies.names.owns text ≡ count_by (λ m. is_own m.part && bytes_eq (lower (member_name m.part)) text) members.now) }
{
    let abis = abis_of(alloc, members)?;
    let names = names_of(alloc, members)?;
    Ok(AbiTallies { abis, names })
}
