//! Methods that repeat the name and the number of parameters of an earlier one.

ghost use Rattle.std.specs.Prelude.{◌≡◌, IfOk};

use crate::overloads::{Overload, key_of, overloads_at};
use placed_sites::{Site, SiteRule, Spot};
use site_parts::{Repeats, first_repeat};
use std::alloc::{AllocError, Global};
use wr_base::{Code, Refusal};

// Overloads by their texts.
struct Keys;

impl<'a> Repeats<Overload<'a>> for Keys {
    ghost use Rattle.wr_base.specs.Lower.{lower};
    ghost use Rattle.placed_sites.specs.Views.{spot_view};
    ghost use Rattle.member_rules.specs.Overloads.{key_of};

    ghost key = { λ _ overload. key_of overload.count (lower overload.name.now) };

    ghost spot = { λ _ overload. spot_view overload.spot };

    fn key(&self, alloc: Global, item: &Overload<'a>) -> Result<String, AllocError> {
        key_of(alloc, item)
    }

    fn spot<'s>(&'s self, item: &'s Overload<'a>) -> Spot<'s> {
        item.spot
    }
}

/// Refuses a method that repeats the name, but for ASCII case, and the number of parameters of an earlier one.
#[derive(Clone, Copy, Debug)]
pub struct OverloadArity;

impl SiteRule for OverloadArity {
    ghost use Rattle.wr_rules.specs.MemberRules.{IsOverloadArity};

    ghost broken = { λ _. IsOverloadArity };

    fn first_at(&self, alloc: Global, site: &Site) -> Result<Option<Refusal>, AllocError> {
        let overloads = overloads_at(alloc, site)?;
        first_repeat(alloc, &Keys, overloads.as_slice(), Code::OverloadArity)
    }
}
