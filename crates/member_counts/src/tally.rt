//! How often names stand among members.

ghost use Rattle.std.specs.Prelude.{◌≡◌, ◌+◌, ◌<◌, ◌≤◌, ◌^◌, ℕ, List, IfOk, OnOk, length, count_by, string_bytes, if◌then◌else◌};
ghost use Rattle.std.specs.Str.{bytes_eq};
ghost use Rattle.wr_rules.specs.Members.{Standing as StandingPart};
ghost use Rattle.member_counts.specs.Tallies.{count_at, has_text};

use site_parts::Standing;
use std::alloc::{AllocError, Global};
use std::collections::BTreeMap;
use wr_base::Member;

/// Which name of a member is counted, where one is.
pub trait Counted {
    ghost use Rattle.std.specs.Prelude.{ℕ, List, Bool};
    ghost use Rattle.wr_rules.specs.Members.{Standing as StandingPart};
    ghost use Rattle.wr_base.specs.declared.declaration.Member.{Member as MemberData};

    ghost has: { Self → StandingPart MemberData → List ℕ → Bool };

    /// The text by which the member is counted.
    fn name(&self, alloc: Global, member: &Standing<Member>) -> Result<Option<String>, AllocError>
        ensures { IfOk result (λ r. (text : List ℕ) → has self.now member.now text ≡ has_text r text) };
}

/// How often the text is counted; 0 where it isn't.
pub fn count_in(tally: &BTreeMap<String, usize>, text: &str) -> usize
    ensures { result ≡ count_at tally.now text.now }
{
    match tally.get(text) {
        Some(count) => *count,
        None => 0,
    }
}

fn set_count(
    tally: &mut BTreeMap<String, usize>,
    text: String,
    count: usize,
) -> Result<(), AllocError>
    ensures { OnOk result ((other : List ℕ) → count_at tally.new other ≡ (if bytes_eq (string_bytes text) other then count else count_at tally.old other)) }
{
    tally.insert(text, count)?;
    Ok(())
}

fn count_one(tally: &mut BTreeMap<String, usize>, name: Option<String>) -> Result<(), AllocError>
    requires { (text : List ℕ) → count_at tally.old text + 1 < 2 ^ 64 }
    ensures { OnOk result ((text : List ℕ) → count_at tally.new text ≡ count_at tally.old text + (if has_text name text then 1 else 0)) }
{
    match name {
        None => Ok(()),
        Some(text) => {
            let count = count_in(tally, text.as_str());
            set_count(tally, text, count + 1)
        }
    }
}

/// How many members have each name.
pub fn tally_of<C: Counted>(
    alloc: Global,
    counted: &C,
    members: &[Standing<Member>],
) -> Result<BTreeMap<String, usize>, AllocError>
    ensures { IfOk result (λ tally. (text : List ℕ) → count_at tally text ≡ count_by (λ m. C.has counted.now m text) members.now) }
{
    let mut tally = BTreeMap::new(alloc);
    for member in members {
        count_one(&mut tally, counted.name(alloc, member)?)?;
    }
    Ok(tally)
}
