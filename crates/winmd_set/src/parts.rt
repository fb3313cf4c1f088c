//! How many parts a declaration has. A sum that is more than a `u64` holds stays at the greatest.

ghost use Rattle.std.specs.Prelude.{◌≡◌, ◌+◌, length, map};
ghost use Rattle.winmd_set.specs.Stated.{capped, set_tree};
ghost use Rattle.winmd_sets.specs.Types.{all_parts_of, params_in, parts_of, sum_of};
ghost use Rattle.wr_base.specs.Trees.{member_tree};

use wr_base::{Declaration, Member};

/// The sum, or the greatest number that a `u64` holds.
pub(crate) fn add(a: u64, b: u64) -> u64
    ensures { result ≡ capped (a + b) }
{
    a.saturating_add(b)
}

fn params_in(member: &Member) -> u64
    ensures { result ≡ params_in (member_tree member.now) }
{
    match member {
        Member::Method { sig, .. } => sig.params.as_slice().len() as u64,
        _ => 0,
    }
}

fn params_of(members: &[Member]) -> u64
    ensures { result ≡ capped (sum_of params_in (map member_tree members.now)) }
{
    let mut sum = 0u64;
    let mut rest = members;
    'each: while let Some((member, after)) = rest.split_first() {
        sum = add(sum, params_in(member));
        rest = after;
    }
    sum
}

/// How many cases, fields or members a declaration has.
pub fn parts_of(declaration: &Declaration) -> u64
    ensures { result ≡ parts_of (set_tree declaration.now) }
{
    match declaration {
        Declaration::Enum { cases, .. } => cases.as_slice().len() as u64,
        Declaration::Struct { fields, .. } => fields.as_slice().len() as u64,
        Declaration::Interface { members, .. } => members.as_slice().len() as u64,
        _ => 0,
    }
}

/// How many those are, with the parameters of methods.
pub(crate) fn all_parts_of(declaration: &Declaration) -> u64
    ensures { result ≡ capped (all_parts_of (set_tree declaration.now)) }
{
    match declaration {
        Declaration::Delegate { invoke, .. } => invoke.params.as_slice().len() as u64,
        Declaration::Interface { members, .. } => add(
            members.as_slice().len() as u64,
            params_of(members.as_slice()),
        ),
        _ => parts_of(declaration),
    }
}
