//! What is counted at a declaration. A sum that is more than a `u64` holds stays at the greatest.

ghost use Rattle.std.specs.Prelude.{◌≡◌, ◌+◌, ℕ, List, IfOk, sum, map, length};
ghost use Rattle.wr_base.specs.Places.{part_count};
ghost use Rattle.wr_rules.specs.Limits.{names_in};
ghost use Rattle.placed_sites.specs.Views.{site_view};
ghost use Rattle.set_limits.specs.Counts.{capped, params_of};

use placed_sites::Site;
use site_parts::{Standing, signatures_at};
use std::alloc::{AllocError, Global};
use wr_base::{Declaration, Signature};

/// The sum, or the greatest number that a `u64` holds.
pub(crate) fn add(a: u64, b: u64) -> u64
    ensures { result ≡ capped (a + b) }
{
    a.saturating_add(b)
}

fn part_count(declaration: &Declaration) -> usize
    ensures { result ≡ part_count declaration.now }
{
    match declaration {
        Declaration::Enum { cases, .. } => cases.as_slice().len(),
        Declaration::Struct { fields, .. } => fields.as_slice().len(),
        Declaration::Interface { members, .. } => members.as_slice().len(),
        _ => 0,
    }
}

fn params_of<'a>(signature: &Standing<'a, Signature>) -> usize
    ensures { result ≡ params_of signature.now }
{
    signature.part().params.as_slice().len()
}

fn params_in<'a>(signatures: &[Standing<'a, Signature>]) -> u64
    ensures { result ≡ capped (sum (map params_of signatures.now)) }
{
    let mut total = 0u64;
    for signature in signatures {
        total = add(total, params_of(signature) as u64);
    }
    total
}

/// The cases, fields or members of a declaration, and the parameters of its signatures.
pub fn names_in(alloc: Global, site: &Site) -> Result<u64, AllocError>
    ensures { IfOk result (λ count. count ≡ capped (names_in (site_view site.now))) }
{
    let signatures = signatures_at(alloc, site)?;
    let params = params_in(signatures.as_slice());
    let parts = part_count(site.declaration);
    Ok(add(parts as u64, params))
}
