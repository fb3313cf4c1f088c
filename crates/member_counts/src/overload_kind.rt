//! Members of one name that aren't all methods.

ghost use Rattle.std.specs.Prelude.{◌≡◌, ◌&&◌, ◌↔◌, not, ℕ, List, IsTrue, IfOk, count_by};
ghost use Rattle.std.specs.Str.{bytes_eq};
ghost use Rattle.ranked.specs.First.{IsFirst};
ghost use Rattle.wr_base.specs.declared.code.Code.TheVariants.{OverloadKind as kind_code};
ghost use Rattle.wr_rules.specs.Members.{member_name};
ghost use Rattle.wr_rules.specs.MemberRules.{EachPaired, is_method, mixes};
ghost use Rattle.member_counts.specs.Tallies.{count_at, Mixed};

use crate::names::{Exact, Others};
use crate::pairs::{FEW, Relation, first_paired};
use crate::tally::{count_in, tally_of};
use placed_sites::{Site, SiteRule, refuse_if};
use site_parts::{ItemRule, Standing, Titled, first_among, members_at};
use std::alloc::{AllocError, Global};
use std::collections::BTreeMap;
use wr_base::{Code, Member, Refusal};

// How many members have a name, and how many of them are no methods.
#[derive(Drop)]
struct Kinds {
    all_: BTreeMap<String, usize>,
    others: BTreeMap<String, usize>,
}

// Whether another member of the name is there, of which one is no method.
fn mixed(tallies: &Kinds, member: &Member) -> bool
    ensures { IsTrue result ↔ Mixed (is_method member.now) (count_at tallies.now.others (member_name member.now)) (count_at tallies.now.all_ (member_name member.now)) }
{
    match member {
        Member::Method { name, .. } => 0 < count_in(&tallies.others, name.as_str()),
        Member::Property { name, .. } => 2 <= count_in(&tallies.all_, name.as_str()),
        Member::Event { name, .. } => 2 <= count_in(&tallies.all_, name.as_str()),
    }
}

impl<'a> ItemRule<Standing<'a, Member>> for Kinds {
    ghost use Rattle.ranked.specs.First.{Only};
    ghost use Rattle.wr_base.specs.declared.code.Code.TheVariants.{OverloadKind as kind_code};
    ghost use Rattle.wr_rules.specs.Sites.{broken_at};
    ghost use Rattle.wr_rules.specs.Members.{member_name};
    ghost use Rattle.wr_rules.specs.MemberRules.{is_method};
    ghost use Rattle.member_counts.specs.Tallies.{count_at, Mixed};

    ghost broken = { λ t m. Only (Mixed (is_method m.part) (count_at t.others (member_name m.part)) (count_at t.all_ (member_name m.part))) (broken_at kind_code m.spot) };

    fn first_at(
        &self,
        alloc: Global,
        item: &Standing<'a, Member>,
    ) -> Result<Option<Refusal>, AllocError> {
        refuse_if(
            alloc,
            &item.spot(),
            mixed(self, item.part()),
            Code::OverloadKind,
        )
    }
}

fn kinds_of(alloc: Global, members: &[Standing<Member>]) -> Result<Kinds, AllocError>
    ensures all_ { IfOk result (λ t. (text : List ℕ) → count_at t.all_ text ≡ count_by (λ m. bytes_eq (member_name m.part) text) members.now) }
    ensures others { IfOk result (λ t. (text : List ℕ) → count_at t.others text ≡ count_by (λ m. not (is_method m.part) && bytes_eq (member_name m.part) text) members.now) }
{
    let all_ = tally_of(alloc, &Exact, members)?;
    let others = tally_of(alloc, &Others, members)?;
    Ok(Kinds { all_, others })
}

fn first_counted(alloc: Global, members: &[Standing<Member>]) -> Result<Option<Refusal>, AllocError>
    ensures { IfOk result (IsFirst (EachPaired kind_code mixes members.now)) }
{
    let tallies = kinds_of(alloc, members)?;
    first_among(alloc, &tallies, members)
}

fn is_method(member: &Member) -> bool
    ensures { result ≡ is_method member.now }
{
    match member {
        Member::Method { .. } => true,
        Member::Property { .. } => false,
        Member::Event { .. } => false,
    }
}

// Members of one name that aren't both methods.
struct Mixes;

impl Relation for Mixes {
    ghost use Rattle.wr_rules.specs.MemberRules.{mixes};

    ghost holds = { λ _. mixes };

    fn relates(&self, one: &Member, other: &Member) -> bool {
        !(is_method(one) && is_method(other)) && one.title().as_str() == other.title().as_str()
    }
}

fn first_mixed(alloc: Global, members: &[Standing<Member>]) -> Result<Option<Refusal>, AllocError>
    ensures { IfOk result (IsFirst (EachPaired kind_code mixes members.now)) }
{
    if members.len() <= FEW {
        first_paired(alloc, &Mixes, Code::OverloadKind, members)
    } else {
        first_counted(alloc, members)
    }
}

/// Refuses each member whose exact name another member has, unless both are methods.
#[derive(Clone, Copy, Debug)]
pub struct OverloadKind;

impl SiteRule for OverloadKind {
    ghost use Rattle.wr_rules.specs.MemberRules.{IsOverloadKind};

    ghost broken = { λ _. IsOverloadKind };

    fn first_at(&self, alloc: Global, site: &Site) -> Result<Option<Refusal>, AllocError> {
        let members = members_at(alloc, site)?;
        first_mixed(alloc, members.as_slice())
    }
}
