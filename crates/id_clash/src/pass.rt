//! The pass over declarations in the order of their places, with the ids and texts that were met so far.

ghost use Rattle.std.specs.Prelude.{◌≡◌, ◌<◌, ℕ, List, IsTrue, IfOk, length, false, nat_eq};
ghost use Rattle.std.specs.HashMap.{get_by_text};
ghost use Rattle.std.specs.HashSet.{contains, contains_text};
ghost use Rattle.ranked.specs.First.{IsFirst};
ghost use Rattle.wr_base.specs.Paths.{is_path};
ghost use Rattle.wr_base.specs.Declarations.{IsInOrder};
ghost use Rattle.wr_base.specs.declared.code.Code.TheVariants.{DuplicateId};
ghost use Rattle.wr_rules.specs.Sites.{sites_of, site_name, spot_of, If};
ghost use Rattle.wr_rules.specs.NameRules.{instances_in, IsDuplicateId};
ghost use Rattle.placed_sites.specs.Views.{site_view};
ghost use Rattle.place_order.specs.Stands.{IsPlaceOrder};
ghost use Rattle.id_table.specs.Taken.{owner};
ghost use Rattle.id_rules.specs.Table.{first_id};
ghost use Rattle.id_rules.specs.Reserved.{OwnsReserved};

use crate::items::{Met, meet, nothing_met};
use id_rules::{instance_ids, reserved_owners};
use namespace_rules::site_of;
use place_order::{Stand, in_place_order};
use placed_sites::{Site, refuse_if};
use ranked::earlier;
use std::alloc::{AllocError, Global};
use std::collections::HashMap;
use wr_base::{Code, PlacedTypes, Refusal, Types};

// The name of a declaration is a path.
fn name_is_path(site: &Site)
    ensures { IsTrue (is_path (site_name (site_view site.now))) }
{
    let _text = site.declaration.name().as_str();
}

fn refuse_at(alloc: Global, site: &Site, told: bool) -> Result<Option<Refusal>, AllocError>
    ensures { IfOk result (IsFirst (If told DuplicateId (spot_of (site_view site.now)))) }
{
    refuse_if(alloc, &site.spot(), told, Code::DuplicateId)
}

fn first_in_order(
    alloc: Global,
    types: &PlacedTypes,
    stands: &[Stand],
    table: &HashMap<String, Option<u128>>,
    reserved: &HashMap<u128, u32>,
    met: &mut Met,
) -> Result<Option<Refusal>, AllocError>
    requires in_order { IsInOrder types.now.types }
    requires order { IsPlaceOrder (sites_of types.now.types types.now.places) stands.now }
    requires table { (text : List ℕ) → get_by_text table.now text ≡ first_id types.now.types (instances_in (sites_of types.now.types types.now.places)) text }
    requires reserved { OwnsReserved (owner reserved.now) }
    requires no_ids { (id : ℕ) → contains nat_eq met.old.ids id ≡ false }
    requires no_texts { (text : List ℕ) → contains_text met.old.texts text ≡ false }
    ensures { IfOk result (IsFirst (IsDuplicateId types.now.types (sites_of types.now.types types.now.places))) }
{
    let mut first = None;
    for i in 0..stands.len() {
        let site = site_of(types, stands, i);
        name_is_path(&site);
        let told = meet(alloc, table, reserved, met, &site)?;
        first = earlier(first, refuse_at(alloc, &site, told)?);
    }
    Ok(first)
}

// The types of a set are in the order of their names.
fn in_order(types: &Types)
    ensures { IsInOrder types.now }
{
    let _count = types.len();
}

fn first_by(
    alloc: Global,
    types: &PlacedTypes,
    table: &HashMap<String, Option<u128>>,
    reserved: &HashMap<u128, u32>,
) -> Result<Option<Refusal>, AllocError>
    requires table { (text : List ℕ) → get_by_text table.now text ≡ first_id types.now.types (instances_in (sites_of types.now.types types.now.places)) text }
    requires reserved { OwnsReserved (owner reserved.now) }
    ensures { IfOk result (IsFirst (IsDuplicateId types.now.types (sites_of types.now.types types.now.places))) }
{
    in_order(&types.types);
    let stands = in_place_order(alloc, types)?;
    let mut met = nothing_met(alloc);
    first_in_order(alloc, types, stands.as_slice(), table, reserved, &mut met)
}

/// The first declaration that has an id, or is the first to use an instance with an id, that is reserved or that another
/// declaration or instance has which stands no later (Windows Runtime type system: ids are unique).
pub fn first_duplicate_id(alloc: Global, types: &PlacedTypes) -> Result<Option<Refusal>, AllocError>
    ensures { IfOk result (IsFirst (IsDuplicateId types.now.types (sites_of types.now.types types.now.places))) }
{
    let table = instance_ids(alloc, types)?;
    let reserved = reserved_owners(alloc)?;
    first_by(alloc, types, &table, &reserved)
}
