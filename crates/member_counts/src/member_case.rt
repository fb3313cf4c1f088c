//! Names of members that differ in ASCII case alone.

ghost use Rattle.std.specs.Prelude.{◌≡◌, ◌<◌, ◌↔◌, ℕ, List, IsTrue, IfOk, count_by};
ghost use Rattle.std.specs.Str.{bytes_eq};
ghost use Rattle.ranked.specs.First.{IsFirst};
ghost use Rattle.wr_base.specs.declared.code.Code.TheVariants.{MemberCase as case_code};
ghost use Rattle.wr_rules.specs.Members.{member_name};
ghost use Rattle.wr_base.specs.Lower.{lower};
ghost use Rattle.wr_rules.specs.MemberRules.{EachPaired, differs_in_case};
ghost use Rattle.member_counts.specs.Tallies.{count_at};

use crate::names::{Exact, Lower};
use crate::pairs::{FEW, Relation, first_paired, same_but_for_case};
use crate::tally::{count_in, tally_of};
use placed_sites::{Site, SiteRule, refuse_if};
use site_parts::{ItemRule, Standing, Titled, first_among, members_at};
use std::alloc::{AllocError, Global};
use std::collections::BTreeMap;
use wr_base::{Code, Member, Refusal, lowered};

// How many members have a name, and how many have a name in lower case.
#[derive(Drop)]
struct Spellings {
    exact: BTreeMap<String, usize>,
    folded: BTreeMap<String, usize>,
}

// Whether more members have the name but for case than exactly.
fn differs(alloc: Global, tallies: &Spellings, member: &Member) -> Result<bool, AllocError>
    ensures { IfOk result (λ differs. IsTrue differs ↔ (count_at tallies.now.exact (member_name member.now) < count_at tallies.now.folded (lower (member_name member.now)))) }
{
    let name = member.title().as_str();
    let text = lowered(alloc, name)?;
    Ok(count_in(&tallies.exact, name) < count_in(&tallies.folded, text.as_str()))
}

impl<'a> ItemRule<Standing<'a, Member>> for Spellings {
    ghost use Rattle.std.specs.Prelude.{◌<◌};
    ghost use Rattle.ranked.specs.First.{Only};
    ghost use Rattle.wr_base.specs.declared.code.Code.TheVariants.{MemberCase as case_code};
    ghost use Rattle.wr_rules.specs.Sites.{broken_at};
    ghost use Rattle.wr_rules.specs.Members.{member_name};
    ghost use Rattle.wr_base.specs.Lower.{lower};
    ghost use Rattle.member_counts.specs.Tallies.{count_at};

    ghost broken = { λ t m. Only (count_at t.exact (member_name m.part) < count_at t.folded (lower (member_name m.part))) (broken_at case_code m.spot) };

    fn first_at(
        &self,
        alloc: Global,
        item: &Standing<'a, Member>,
    ) -> Result<Option<Refusal>, AllocError> {
        let broken = differs(alloc, self, item.part())?;
        refuse_if(alloc, &item.spot(), broken, Code::MemberCase)
    }
}

fn spellings_of(alloc: Global, members: &[Standing<Member>]) -> Result<Spellings, AllocError>
    ensures exact { IfOk result (λ t. (text : List ℕ) → count_at t.exact text ≡ count_by (λ m. bytes_eq (member_name m.part) text) members.now) }
    ensures folded { IfOk result (λ t. (text : List ℕ) → count_at t.folded text ≡ count_by (λ m. bytes_eq (lower (member_name m.part)) text) members.now) }
{
    let exact = tally_of(alloc, &Exact, members)?;
    let folded = tally_of(alloc, &Lower, members)?;
    Ok(Spellings { exact, folded })
}

fn first_counted(alloc: Global, members: &[Standing<Member>]) -> Result<Option<Refusal>, AllocError>
    ensures { IfOk result (IsFirst (EachPaired case_code differs_in_case members.now)) }
{
    let tallies = spellings_of(alloc, members)?;
    first_among(alloc, &tallies, members)
}

// Names that differ in ASCII case alone.
struct DiffersInCase;

impl Relation for DiffersInCase {
    ghost use Rattle.wr_rules.specs.MemberRules.{differs_in_case};

    ghost holds = { λ _. differs_in_case };

    fn relates(&self, one: &Member, other: &Member) -> bool {
        let one = one.title().as_str();
        let other = other.title().as_str();
        same_but_for_case(one, other) && one != other
    }
}

fn first_differing(
    alloc: Global,
    members: &[Standing<Member>],
) -> Result<Option<Refusal>, AllocError>
    ensures { IfOk result (IsFirst (EachPaired case_code differs_in_case members.now)) }
{
    if members.len() <= FEW {
        first_paired(alloc, &DiffersInCase, Code::MemberCase, members)
    } else {
        first_counted(alloc, members)
    }
}

/// Refuses each member of whose name another member's differs in ASCII case alone.
#[derive(Clone, Copy, Debug)]
pub struct MemberCase;

impl SiteRule for MemberCase {
    ghost use Rattle.wr_rules.specs.MemberRules.{IsMemberCase};

    ghost broken = { λ _. IsMemberCase };

    fn first_at(&self, alloc: Global, site: &Site) -> Result<Option<Refusal>, AllocError> {
        let members = members_at(alloc, site)?;
        first_differing(alloc, members.as_slice())
    }
}
