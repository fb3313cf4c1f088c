//! Rules on single uses, and the pass over the uses of a declaration.

ghost use Rattle.std.specs.Prelude.{◌≡◌, map, IfOk};
ghost use Rattle.ranked.specs.First.{IsFirst, Among};
ghost use Rattle.wr_rules.specs.Uses.{uses_at};
ghost use Rattle.site_uses.specs.Views.{used_view};

use crate::gathered::SiteUses;
use placed_sites::refuse_if;
use ranked::earlier;
use site_uses::{UseTest, Used, any_inside, any_within};
use std::alloc::{AllocError, Global};
use wr_base::{Code, Refusal};

/// A rule on one use.
pub(crate) trait UsedRule {
    ghost use Rattle.ranked.specs.Entries.{Entry};
    ghost use Rattle.wr_rules.specs.Uses as uses;

    ghost broken: { Self → uses.Used → Entry → Type 0 };

    fn first_at(&self, alloc: Global, used: &Used) -> Result<Option<Refusal>, AllocError>
        ensures { IfOk result (IsFirst (broken self.now (used_view used.now))) };
}

/// A question on one use as it stands.
pub(crate) trait UsedTest {
    ghost use Rattle.std.specs.Prelude.{Bool};
    ghost use Rattle.wr_rules.specs.Uses as uses;

    ghost meets: { Self → uses.Used → Bool };

    fn meets(&self, used: &Used) -> bool
        ensures { result ≡ meets self.now (used_view used.now) };
}

fn first_in_uses<R: UsedRule>(
    alloc: Global,
    rule: &R,
    uses: &[Used],
) -> Result<Option<Refusal>, AllocError>
    ensures { IfOk result (IsFirst (Among (map used_view uses.now) (R.broken rule.now))) }
{
    let mut first = None;
    for used in uses {
        first = earlier(first, rule.first_at(alloc, used)?);
    }
    Ok(first)
}

/// The first entry of a rule that is broken at any use of the declaration.
pub(crate) fn first_use<R: UsedRule>(
    alloc: Global,
    rule: &R,
    gathered: &SiteUses,
) -> Result<Option<Refusal>, AllocError>
    ensures { IfOk result (IsFirst (Among (uses_at gathered.now) (R.broken rule.now))) }
{
    first_in_uses(alloc, rule, gathered.uses())
}

/// Refuses each use that meets the test.
#[derive(Drop)]
pub(crate) struct EachUse<T> {
    pub(crate) test: T,
    pub(crate) code: Code,
}

impl<T: UsedTest> UsedRule for EachUse<T> {
    ghost use Rattle.wr_rules.specs.Sites.{If};

    ghost broken = { λ rule u. If (T.meets rule.test u) rule.code u.spot };

    fn first_at(&self, alloc: Global, used: &Used) -> Result<Option<Refusal>, AllocError> {
        refuse_if(alloc, &used.spot, self.test.meets(used), self.code)
    }
}

/// Refuses each use that passes the test or has one within it that does.
#[derive(Drop)]
pub(crate) struct EachWithin<T> {
    pub(crate) test: T,
    pub(crate) code: Code,
}

impl<T: UseTest> UsedRule for EachWithin<T> {
    ghost use Rattle.ranked.specs.First.{Among};
    ghost use Rattle.wr_base.specs.Trees.{within};
    ghost use Rattle.wr_rules.specs.Sites.{If};

    ghost broken = { λ rule u. Among (within u.use_) (λ v. If (T.passes rule.test v) rule.code u.spot) };

    fn first_at(&self, alloc: Global, used: &Used) -> Result<Option<Refusal>, AllocError> {
        refuse_if(
            alloc,
            &used.spot,
            any_within(&self.test, &used.shape),
            self.code,
        )
    }
}

/// Refuses each use that has one within it that passes the test.
#[derive(Drop)]
pub(crate) struct EachInside<T> {
    pub(crate) test: T,
    pub(crate) code: Code,
}

impl<T: UseTest> UsedRule for EachInside<T> {
    ghost use Rattle.ranked.specs.First.{Among};
    ghost use Rattle.wr_rules.specs.Sites.{If};
    ghost use Rattle.wr_rules.specs.UseRules.{inner};

    ghost broken = { λ rule u. Among (inner u.use_) (λ v. If (T.passes rule.test v) rule.code u.spot) };

    fn first_at(&self, alloc: Global, used: &Used) -> Result<Option<Refusal>, AllocError> {
        refuse_if(
            alloc,
            &used.spot,
            any_inside(&self.test, &used.shape),
            self.code,
        )
    }
}
