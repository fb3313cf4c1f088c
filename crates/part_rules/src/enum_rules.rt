//! Values of cases that don't fit.

ghost use Rattle.std.specs.Prelude.{◌≡◌, IfOk};
ghost use Rattle.wr_rules.specs.MemberRules.{fits, is_flags};

use placed_sites::{Site, SiteRule, refuse_if};
use site_parts::{ItemRule, Standing, cases_at, first_among};
use std::alloc::{AllocError, Global};
use wr_base::{Case, Code, Declaration, Refusal};

fn is_flags(declaration: &Declaration) -> bool
    ensures { result ≡ is_flags declaration.now }
{
    match declaration {
        Declaration::Enum { flags, .. } => *flags,
        _ => false,
    }
}

// Whether it is a UInt32, with flags, or an Int32.
fn fits(flags: bool, case: &Case) -> bool
    ensures { result ≡ fits flags case.now.value }
{
    if flags {
        0 <= case.value && case.value <= 4294967295
    } else {
        -2147483648 <= case.value && case.value <= 2147483647
    }
}

// Refuses a case whose value doesn't fit.
#[derive(Drop)]
struct CaseRange {
    flags: bool,
}

impl<'a> ItemRule<Standing<'a, Case>> for CaseRange {
    ghost use Rattle.std.specs.Prelude.{not};
    ghost use Rattle.wr_base.specs.declared.code.Code.TheVariants.{EnumRange as range};
    ghost use Rattle.wr_rules.specs.Sites.{If};
    ghost use Rattle.wr_rules.specs.MemberRules.{fits};

    ghost broken = { λ rule c. If (not (fits rule.flags c.part.value)) range c.spot };

    fn first_at(
        &self,
        alloc: Global,
        item: &Standing<'a, Case>,
    ) -> Result<Option<Refusal>, AllocError> {
        refuse_if(
            alloc,
            &item.spot(),
            !fits(self.flags, item.part()),
            Code::EnumRange,
        )
    }
}

/// Refuses a case whose value doesn't fit its enum.
#[derive(Clone, Copy, Debug)]
pub struct EnumRange;

impl SiteRule for EnumRange {
    ghost use Rattle.wr_rules.specs.MemberRules.{IsEnumRange};

    ghost broken = { λ _. IsEnumRange };

    fn first_at(&self, alloc: Global, site: &Site) -> Result<Option<Refusal>, AllocError> {
        let cases = cases_at(alloc, site)?;
        let rule = CaseRange {
            flags: is_flags(site.declaration),
        };
        first_among(alloc, &rule, cases.as_slice())
    }
}
