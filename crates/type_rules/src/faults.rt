//! The first entry that is broken, by the rules and then by the limits.

ghost use Rattle.std.specs.Prelude.{IfOk};
ghost use Rattle.ranked.specs.First.{IsFirst};
ghost use Rattle.wr_rules.specs.Sites.{sites_of};
ghost use Rattle.wr_rules.specs.Accepted.{Broken, Rules};
ghost use Rattle.type_rules.specs.Parts.{SiteParts, GraphParts, NameParts};

use id_clash::first_duplicate_id;
use limits::first_limit;
use list_rules::{first_of_lists, first_struct_cycle};
use member_faults::first_member_fault;
use namespace_rules::first_namespace_clash;
use ranked::earlier;
use site_rules::first_site_fault;
use std::alloc::{AllocError, Global};
use wr_base::{PlacedTypes, Refusal};

fn at_sites(alloc: Global, types: &PlacedTypes) -> Result<Option<Refusal>, AllocError>
    ensures { IfOk result (IsFirst (SiteParts types.now.types (sites_of types.now.types types.now.places))) }
{
    let alone = first_site_fault(alloc, types)?;
    let members = first_member_fault(alloc, types)?;
    Ok(earlier(alone, members))
}

fn in_graphs(alloc: Global, types: &PlacedTypes) -> Result<Option<Refusal>, AllocError>
    ensures { IfOk result (IsFirst (GraphParts types.now.types (sites_of types.now.types types.now.places))) }
{
    let lists = first_of_lists(alloc, types)?;
    let structs = first_struct_cycle(alloc, types)?;
    Ok(earlier(lists, structs))
}

fn of_names(alloc: Global, types: &PlacedTypes) -> Result<Option<Refusal>, AllocError>
    ensures { IfOk result (IsFirst (NameParts types.now.types (sites_of types.now.types types.now.places))) }
{
    let names = first_namespace_clash(alloc, types)?;
    let ids = first_duplicate_id(alloc, types)?;
    Ok(earlier(names, ids))
}

fn first_rule(alloc: Global, types: &PlacedTypes) -> Result<Option<Refusal>, AllocError>
    ensures { IfOk result (IsFirst (Rules types.now.types (sites_of types.now.types types.now.places))) }
{
    let sites = at_sites(alloc, types)?;
    let graphs = in_graphs(alloc, types)?;
    let names = of_names(alloc, types)?;
    Ok(earlier(sites, earlier(graphs, names)))
}

/// The first entry that one of the 28 rules breaks, and where none is broken the first of the limits; none exactly where nothing is broken.
pub fn first_fault(alloc: Global, types: &PlacedTypes) -> Result<Option<Refusal>, AllocError>
    ensures { IfOk result (IsFirst (Broken types.now.types types.now.places)) }
{
    match first_rule(alloc, types)? {
        Some(refusal) => Ok(Some(refusal)),
        None => first_limit(alloc, types),
    }
}
