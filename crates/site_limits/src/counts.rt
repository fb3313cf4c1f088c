//! Too many members, cases or fields, and too many parameters.

ghost use Rattle.std.specs.Prelude.{◌≡◌, nat_lt, length};
ghost use Rattle.wr_base.specs.Places.{part_count};

use placed_sites::{Site, SiteRule, refuse_if};
use site_parts::{ItemRule, Standing, first_among, signatures_at};
use std::alloc::{AllocError, Global};
use wr_base::{Code, Declaration, Refusal, Signature};

fn part_count(declaration: &Declaration) -> usize
    ensures { result ≡ part_count declaration.now }
{
    match declaration {
        Declaration::Enum { cases, .. } => cases.as_slice().len(),
        Declaration::Struct { fields, .. } => fields.as_slice().len(),
        Declaration::Interface { members, .. } => members.as_slice().len(),
        _ => 0,
    }
}

fn has_many(declaration: &Declaration) -> bool
    ensures { result ≡ nat_lt 4000 (part_count declaration.now) }
{
    4000 < part_count(declaration)
}

fn takes_many(signature: &Signature) -> bool
    ensures { result ≡ nat_lt 64 (length signature.now.params) }
{
    64 < signature.params.as_slice().len()
}

/// Refuses a declaration of more than 4,000 members, cases or fields.
#[derive(Clone, Copy, Debug)]
pub struct ManyMembers;

impl SiteRule for ManyMembers {
    ghost use Rattle.wr_rules.specs.Limits.{IsManyMembers};

    ghost broken = { λ _. IsManyMembers };

    fn first_at(&self, alloc: Global, site: &Site) -> Result<Option<Refusal>, AllocError> {
        refuse_if(
            alloc,
            &site.spot(),
            has_many(site.declaration),
            Code::ManyMembers,
        )
    }
}

// Refuses a signature of more than 64 parameters.
#[derive(Clone, Copy, Debug)]
struct ParamCount;

impl<'a> ItemRule<Standing<'a, Signature>> for ParamCount {
    ghost use Rattle.std.specs.Prelude.{nat_lt, length};
    ghost use Rattle.wr_base.specs.declared.code.Code.TheVariants.{ManyParams as many};
    ghost use Rattle.wr_rules.specs.Sites.{If};

    ghost broken = { λ _ g. If (nat_lt 64 (length g.part.params)) many g.spot };

    fn first_at(
        &self,
        alloc: Global,
        item: &Standing<'a, Signature>,
    ) -> Result<Option<Refusal>, AllocError> {
        refuse_if(
            alloc,
            &item.spot(),
            takes_many(item.part()),
            Code::ManyParams,
        )
    }
}

/// Refuses a method or a delegate of more than 64 parameters.
#[derive(Clone, Copy, Debug)]
pub struct ManyParams;

impl SiteRule for ManyParams {
    ghost use Rattle.wr_rules.specs.Limits.{IsManyParams};

    ghost broken = { λ _. IsManyParams };

    fn first_at(&self, alloc: Global, site: &Site) -> Result<Option<Refusal>, AllocError> {
        let signatures = signatures_at(alloc, site)?;
        first_among(alloc, &ParamCount, signatures.as_slice())
    }
}
