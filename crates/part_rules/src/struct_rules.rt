//! A struct without fields.

ghost use Rattle.std.specs.Prelude.{◌≡◌};
ghost use Rattle.wr_rules.specs.MemberRules.{is_bare_struct};

use placed_sites::{Site, SiteRule, refuse_if};
use std::alloc::{AllocError, Global};
use wr_base::{Code, Declaration, Refusal};

fn is_bare_struct(declaration: &Declaration) -> bool
    ensures { result ≡ is_bare_struct declaration.now }
{
    match declaration {
        Declaration::Struct { fields, .. } => fields.as_slice().is_empty(),
        _ => false,
    }
}

/// Refuses a struct that has no field.
#[derive(Clone, Copy, Debug)]
pub struct StructEmpty;

impl SiteRule for StructEmpty {
    ghost use Rattle.wr_rules.specs.MemberRules.{IsStructEmpty};

    ghost broken = { λ _. IsStructEmpty };

    fn first_at(&self, alloc: Global, site: &Site) -> Result<Option<Refusal>, AllocError> {
        refuse_if(
            alloc,
            &site.spot(),
            is_bare_struct(site.declaration),
            Code::StructEmpty,
        )
    }
}
