//! The uses of one declaration, gathered once, and the rules that are asked of them.

ghost use Rattle.std.specs.Prelude.{◌≡◌, IfOk, map};
ghost use Rattle.ranked.specs.First.{IsFirst};
ghost use Rattle.wr_rules.specs.Uses.{uses_at};
ghost use Rattle.placed_sites.specs.Views.{site_view};
ghost use Rattle.site_uses.specs.Views.{used_view};

use placed_sites::{Site, SiteRule};
use ranked::earlier;
use site_uses::{Used, uses_at};
use std::alloc::{AllocError, Global};
use std::marker::Model;
use wr_base::{Declaration, Refusal};

/// A declaration with all its uses, in order. It is seen as the declaration where it stands.
#[derive(Drop)]
pub struct SiteUses<'a> {
    site: Site<'a>,
    uses: Vec<Used<'a>>,
}

impl<'a> Model for SiteUses<'a> {
    ghost use Rattle.std.specs.Prelude.{◌≡◌, map};
    ghost use Rattle.wr_rules.specs.Sites as sites;
    ghost use Rattle.wr_rules.specs.Uses.{uses_at};
    ghost use Rattle.placed_sites.specs.Views.{site_view};
    ghost use Rattle.site_uses.specs.Views.{used_view};
    ghost use Rattle.std.specs.Coded.{codes};
    ghost use Rattle.wr_base.specs.contracts.type_use.TypeUse.{the_row};

    ghost Value = { sites.Site };

    ghost coded = { Prim.hlevel (codes, the_row.coded) };

    ghost view = { λ s. site_view s.site };

    ghost invariant = { λ s. map used_view s.uses.items ≡ uses_at (site_view s.site) };
}

impl<'a> SiteUses<'a> {
    /// The declaration with its uses.
    pub fn new(alloc: Global, site: &Site<'a>) -> Result<SiteUses<'a>, AllocError>
        ensures { IfOk result (λ gathered. gathered ≡ site_view site.now) }
    {
        let uses = uses_at(alloc, site)?;
        Ok(SiteUses { site: *site, uses })
    }

    /// The declaration.
    pub fn declaration(&self) -> &'a Declaration
        ensures { result.now ≡ self.now.decl }
    {
        self.site.declaration
    }

    /// Its uses.
    pub fn uses(&self) -> &[Used<'a>]
        ensures { map used_view result.now ≡ uses_at self.now }
    {
        self.uses.as_slice()
    }
}

/// A rule on the uses of one declaration.
pub trait UsesRule {
    ghost use Rattle.ranked.specs.Entries.{Entry};
    ghost use Rattle.wr_rules.specs.Sites.{Site};

    // This entry is broken at the declaration.
    ghost broken: { Self → Site → Entry → Type 0 };

    /// The first entry that is broken at the declaration with these uses.
    fn first_of(&self, alloc: Global, gathered: &SiteUses) -> Result<Option<Refusal>, AllocError>
        ensures { IfOk result (IsFirst (broken self.now gathered.now)) };
}

/// Two rules on uses as one.
#[derive(Clone, Copy, Debug)]
pub struct BothOnUses<A, B> {
    pub first: A,
    pub second: B,
}

impl<A: UsesRule, B: UsesRule> UsesRule for BothOnUses<A, B> {
    ghost use Rattle.ranked.specs.First.{Or};

    ghost broken = { λ rules site. Or (A.broken rules.first site) (B.broken rules.second site) };

    fn first_of(&self, alloc: Global, gathered: &SiteUses) -> Result<Option<Refusal>, AllocError> {
        let first = self.first.first_of(alloc, gathered)?;
        let second = self.second.first_of(alloc, gathered)?;
        Ok(earlier(first, second))
    }
}

/// A rule on uses as one on declarations: it gathers the uses of a declaration, once.
#[derive(Clone, Copy, Debug)]
pub struct OnUses<R> {
    pub rule: R,
}

impl<R: UsesRule> SiteRule for OnUses<R> {
    ghost broken = { λ on. R.broken on.rule };

    fn first_at(&self, alloc: Global, site: &Site) -> Result<Option<Refusal>, AllocError> {
        let gathered = SiteUses::new(alloc, site)?;
        self.rule.first_of(alloc, &gathered)
    }
}
