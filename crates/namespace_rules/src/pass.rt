//! The pass over declarations in the order of their places, with the names that were met so far.

ghost use Rattle.std.specs.Prelude.{◌≡◌, ◌<◌, Some, IfOk, OnOk, length, slice_get};
ghost use Rattle.ranked.specs.First.{IsFirst};
ghost use Rattle.wr_base.specs.Lower.{lower};
ghost use Rattle.wr_base.specs.declared.code.Code.TheVariants.{NamespaceClash};
ghost use Rattle.wr_rules.specs.Sites.{sites_of, spot_of, If};
ghost use Rattle.wr_rules.specs.NameRules.{all_names, IsNamespaceClash};
ghost use Rattle.placed_sites.specs.Views.{site_view};
ghost use Rattle.place_order.specs.Stands.{IsPlaceOrder};
ghost use Rattle.set_limits.specs.Pass.{IsStep};
ghost use Rattle.namespace_rules.specs.Spaces.{AddsText, HasSpaces, is_told};

use crate::spaces::{add_own, is_space, names_of};
use found_table::is_found;
use place_order::{Stand, in_place_order};
use placed_sites::{Site, refuse_if};
use ranked::earlier;
use std::alloc::{AllocError, Global};
use std::collections::{BTreeSet, HashSet};
use wr_base::{Code, FullName, PlacedTypes, Refusal, lowered};

fn stand_at(stands: &[Stand], i: usize) -> Stand
    requires { i < length stands.now }
    ensures { slice_get stands.now i ≡ Some result }
{
    stands[i]
}

/// The declaration that stands at this place of the order.
pub fn site_of<'a>(types: &'a PlacedTypes, stands: &[Stand], i: usize) -> Site<'a>
    requires order { IsPlaceOrder (sites_of types.now.types types.now.places) stands.now }
    requires within { i < length stands.now }
    ensures { IsStep (sites_of types.now.types types.now.places) stands.now i (site_view result) }
{
    let stand = stand_at(stands, i);
    Site::at(types, stand.number)
}

// Whether the name is taken; from here on it is.
fn meet(
    alloc: Global,
    names: &BTreeSet<String>,
    met: &mut HashSet<String>,
    name: &FullName,
) -> Result<bool, AllocError>
    ensures told { IfOk result (λ b. b ≡ is_told names.now met.old name.now) }
    ensures met { OnOk result (AddsText (lower name.now) met.old met.new) }
{
    let text = lowered(alloc, name.as_str())?;
    let is_space = is_space(alloc, names, text.as_str())?;
    let told = is_space || is_found(name.as_str()) || met.contains(text.as_str());
    add_own(met, text)?;
    Ok(told)
}

fn refuse_at(alloc: Global, site: &Site, told: bool) -> Result<Option<Refusal>, AllocError>
    ensures { IfOk result (IsFirst (If told NamespaceClash (spot_of (site_view site.now)))) }
{
    refuse_if(alloc, &site.spot(), told, Code::NamespaceClash)
}

fn first_in_order(
    alloc: Global,
    types: &PlacedTypes,
    stands: &[Stand],
    names: &BTreeSet<String>,
) -> Result<Option<Refusal>, AllocError>
    requires order { IsPlaceOrder (sites_of types.now.types types.now.places) stands.now }
    requires names { HasSpaces (all_names (sites_of types.now.types types.now.places)) names.now }
    ensures { IfOk result (IsFirst (IsNamespaceClash (sites_of types.now.types types.now.places))) }
{
    let mut first = None;
    let mut met = HashSet::new(alloc);
    for i in 0..stands.len() {
        let site = site_of(types, stands, i);
        let told = meet(alloc, names, &mut met, site.declaration.name())?;
        first = earlier(first, refuse_at(alloc, &site, told)?);
    }
    Ok(first)
}

/// The first declaration whose name is that of a namespace that holds a type, of a found type, or of a type that stands before it, but for ASCII case.
pub fn first_namespace_clash(
    alloc: Global,
    types: &PlacedTypes,
) -> Result<Option<Refusal>, AllocError>
    ensures { IfOk result (IsFirst (IsNamespaceClash (sites_of types.now.types types.now.places))) }
{
    let names = names_of(alloc, types)?;
    let stands = in_place_order(alloc, types)?;
    first_in_order(alloc, types, stands.as_slice(), &names)
}
