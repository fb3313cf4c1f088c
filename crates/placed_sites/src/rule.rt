//! Rules on one declaration, and the pass over all declarations.

ghost use Rattle.std.specs.Prelude.{◌≡◌, ◌≤◌, IfOk, length};
ghost use Rattle.ranked.specs.First.{IsFirst, Among, Or};
ghost use Rattle.wr_rules.specs.Sites.{sites_of};
ghost use Rattle.placed_sites.specs.Views.{site_view};

use crate::site::Site;
use ranked::earlier;
use std::alloc::{AllocError, Global};
use wr_base::{PlacedTypes, Refusal};

/// A rule on one declaration.
pub trait SiteRule {
    ghost use Rattle.ranked.specs.Entries.{Entry};
    ghost use Rattle.wr_rules.specs.Sites.{Site};

    // This entry is broken at the declaration.
    ghost broken: { Self → Site → Entry → Type 0 };

    /// The first entry that is broken at the declaration.
    fn first_at(&self, alloc: Global, site: &Site) -> Result<Option<Refusal>, AllocError>
        ensures { IfOk result (IsFirst (broken self.now (site_view site.now))) };
}

/// Two rules as one.
#[derive(Clone, Copy, Debug)]
pub struct Both<A, B> {
    pub first: A,
    pub second: B,
}

impl<A: SiteRule, B: SiteRule> SiteRule for Both<A, B> {
    ghost use Rattle.ranked.specs.First.{Or};

    ghost broken = { λ rules site. Or (A.broken rules.first site) (B.broken rules.second site) };

    fn first_at(&self, alloc: Global, site: &Site) -> Result<Option<Refusal>, AllocError> {
        let first = self.first.first_at(alloc, site)?;
        let second = self.second.first_at(alloc, site)?;
        Ok(earlier(first, second))
    }
}

// How many declarations have places.
fn site_count(types: &PlacedTypes) -> u32
    ensures declared { result ≤ length types.now.types }
    ensures placed { result ≤ length types.now.places }
    ensures count { result ≡ length (sites_of types.now.types types.now.places) }
{
    let declared = types.types.len();
    let placed = types.places.len();
    if placed < declared as usize {
        placed as u32
    } else {
        declared
    }
}

/// The first entry of a rule that is broken at any declaration.
pub fn first_in<R: SiteRule>(
    alloc: Global,
    rule: &R,
    types: &PlacedTypes,
) -> Result<Option<Refusal>, AllocError>
    ensures { IfOk result (IsFirst (Among (sites_of types.now.types types.now.places) (R.broken rule.now))) }
{
    let mut first = None;
    for i in 0..site_count(types) {
        let site = Site::at(types, i);
        first = earlier(first, rule.first_at(alloc, &site)?);
    }
    Ok(first)
}
