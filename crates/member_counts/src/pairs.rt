//! Rules on pairs of members, where they are few: each member is compared with each other one, and nothing is
//! allocated but a refusal's word.

ghost use Rattle.std.specs.Prelude.{◌≡◌, ◌<◌, ◌↔◌, ◌==◌, ◌&&◌, not, length, slice_get, Some, IsTrue, IfOk};
ghost use Rattle.std.specs.Str.{bytes_eq};
ghost use Rattle.ranked.specs.First.{IsFirst, At, Only};
ghost use Rattle.wr_base.specs.Lower.{lower};
ghost use Rattle.wr_rules.specs.Sites.{broken_at};
ghost use Rattle.wr_rules.specs.MemberRules.{Pair, EachPaired};

use placed_sites::refuse_if;
use ranked::earlier;
use site_parts::Standing;
use std::alloc::{AllocError, Global};
use wr_base::{Code, Member, Refusal};

/// At most so many members are few.
pub const FEW: usize = 16;

/// What two members may have to do with each other.
pub trait Relation {
    ghost use Rattle.std.specs.Prelude.{Bool};
    ghost use Rattle.wr_base.specs.declared.declaration.Member.{Member as MemberData};

    ghost holds: { Self → MemberData → MemberData → Bool };

    /// Whether it holds of one and another.
    fn relates(&self, one: &Member, other: &Member) -> bool
        ensures { result ≡ holds self.now one.now other.now };
}

/// Whether two texts are one but for ASCII case.
pub fn same_but_for_case(one: &str, other: &str) -> bool
    ensures { result ≡ bytes_eq (lower one.now) (lower other.now) }
{
    one.eq_ignore_ascii_case(other)
}

// Whether the second member stands at another index than the first, and is related to it.
fn is_related<R: Relation>(
    relation: &R,
    index: usize,
    member: &Standing<Member>,
    other: usize,
    another: &Standing<Member>,
) -> bool
    ensures { result ≡ (not (index == other) && R.holds relation.now member.now.part another.now.part) }
{
    index != other && relation.relates(member.part(), another.part())
}

// Whether another member than the one at the index is related to it.
fn is_paired<R: Relation>(
    relation: &R,
    members: &[Standing<Member>],
    index: usize,
    member: &Standing<Member>,
) -> bool
    ensures { IsTrue result ↔ Pair (R.holds relation.now) members.now index member.now }
{
    for other in 0..members.len() {
        if is_related(relation, index, member, other, &members[other]) {
            return true;
        }
    }
    false
}

// The member at the index, where another one is related to it.
fn first_at_index<R: Relation>(
    alloc: Global,
    relation: &R,
    code: Code,
    members: &[Standing<Member>],
    index: usize,
) -> Result<Option<Refusal>, AllocError>
    requires { index < length members.now }
    ensures { IfOk result (IsFirst (At members.now (λ a. Only (Pair (R.holds relation.now) members.now index a) (broken_at code a.spot)) index)) }
{
    let member = &members[index];
    let broken = is_paired(relation, members, index, member);
    refuse_if(alloc, &member.spot(), broken, code)
}

/// The first member to which another one is related.
pub fn first_paired<R: Relation>(
    alloc: Global,
    relation: &R,
    code: Code,
    members: &[Standing<Member>],
) -> Result<Option<Refusal>, AllocError>
    ensures { IfOk result (IsFirst (EachPaired code (R.holds relation.now) members.now)) }
{
    let mut first = None;
    for index in 0..members.len() {
        first = earlier(
            first,
            first_at_index(alloc, relation, code, members, index)?,
        );
    }
    Ok(first)
}
