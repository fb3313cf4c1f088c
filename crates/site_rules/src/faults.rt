//! The first broken entry of the rules on one declaration.

ghost use Rattle.std.specs.Prelude.{◌≡◌, IfOk};
ghost use Rattle.ranked.specs.First.{IsFirst, Among, Or};
ghost use Rattle.wr_rules.specs.Sites.{sites_of};
ghost use Rattle.site_rules.specs.SiteRules.{Depths, Stands, Names, Parts, SiteRules};

use crate::on_uses::{AsStanding, AtDepth};
use member_rules::OverloadArity;
use part_rules::{
    DefaultMissing, EnumRange, EnumRepeat, FieldRepeat, ParamRepeat, StaticMembers, StructEmpty,
};
use placed_sites::{Both, first_in};
use ranked::earlier;
use std::alloc::{AllocError, Global};
use use_rules::{BothOnUses, OnUses};
use wr_base::{PlacedTypes, Refusal};

// Rules on names that are repeated.
fn names(alloc: Global, placed: &PlacedTypes) -> Result<Option<Refusal>, AllocError>
    ensures { IfOk result (IsFirst (Among (sites_of placed.now.types placed.now.places) Names)) }
{
    let rules = Both {
        first: EnumRepeat,
        second: Both {
            first: FieldRepeat,
            second: Both {
                first: ParamRepeat,
                second: OverloadArity,
            },
        },
    };
    first_in(alloc, &rules, placed)
}

// Rules on cases, structs and classes.
fn parts(alloc: Global, placed: &PlacedTypes) -> Result<Option<Refusal>, AllocError>
    ensures { IfOk result (IsFirst (Among (sites_of placed.now.types placed.now.places) (Parts placed.now.types))) }
{
    let rules = Both {
        first: EnumRange,
        second: Both {
            first: StructEmpty,
            second: Both {
                first: DefaultMissing,
                second: StaticMembers,
            },
        },
    };
    first_in(alloc, &rules, placed)
}

fn on_uses(alloc: Global, placed: &PlacedTypes) -> Result<Option<Refusal>, AllocError>
    ensures { IfOk result (IsFirst (Or (Among (sites_of placed.now.types placed.now.places) (Depths placed.now.types)) (Among (sites_of placed.now.types placed.now.places) (Stands placed.now.types)))) }
{
    let types = &placed.types;
    let rules = BothOnUses {
        first: AtDepth { types },
        second: AsStanding { types },
    };
    first_in(alloc, &OnUses { rule: rules }, placed)
}

fn on_parts(alloc: Global, placed: &PlacedTypes) -> Result<Option<Refusal>, AllocError>
    ensures { IfOk result (IsFirst (Or (Among (sites_of placed.now.types placed.now.places) Names) (Among (sites_of placed.now.types placed.now.places) (Parts placed.now.types)))) }
{
    let first = names(alloc, placed)?;
    let second = parts(alloc, placed)?;
    Ok(earlier(first, second))
}

/// The first entry that one of seventeen rules on one declaration breaks: those on uses, on names that a later part
/// repeats, on values of cases, on empty structs, and on what a class lacks or may not have.
pub fn first_site_fault(alloc: Global, placed: &PlacedTypes) -> Result<Option<Refusal>, AllocError>
    ensures { IfOk result (IsFirst (SiteRules placed.now.types (sites_of placed.now.types placed.now.places))) }
{
    let first = on_uses(alloc, placed)?;
    let second = on_parts(alloc, placed)?;
    Ok(earlier(first, second))
}
