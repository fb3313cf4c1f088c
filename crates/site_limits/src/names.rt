//! Full names that are too long.

ghost use Rattle.std.specs.Prelude.{◌≡◌};
ghost use Rattle.wr_rules.specs.Limits.{is_long_name};

use placed_sites::{Site, SiteRule, refuse_if};
use std::alloc::{AllocError, Global};
use wr_base::{Code, FullName, Refusal, tests_short_name};

fn is_long(name: &FullName) -> bool
    ensures { result ≡ is_long_name name.now }
{
    !tests_short_name(name.as_str().as_bytes())
}

/// Refuses a full name of more than 511 bytes, or of which a part has more than 255.
#[derive(Clone, Copy, Debug)]
pub struct LongFullName;

impl SiteRule for LongFullName {
    ghost use Rattle.wr_rules.specs.Limits.{IsLongFullName};

    ghost broken = { λ _. IsLongFullName };

    fn first_at(&self, alloc: Global, site: &Site) -> Result<Option<Refusal>, AllocError> {
        refuse_if(
            alloc,
            &site.spot(),
            is_long(site.declaration.name()),
            Code::LongFullName,
        )
    }
}
