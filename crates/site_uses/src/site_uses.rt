//! All uses of a declaration.

ghost use Rattle.std.specs.Prelude.{◌≡◌, ◌++◌, ◌∷◌, [], IfOk, OnOk, map};
ghost use Rattle.std.specs.List.{flat_map};
ghost use Rattle.wr_rules.specs.Members.{fields_at, members_at};
ghost use Rattle.wr_rules.specs.Uses.{used_at, name_at, optional, listed, field, signature_uses, member_uses, uses_at};
ghost use Rattle.placed_sites.specs.Views.{site_view, spot_view};
ghost use Rattle.site_uses.specs.Views.{used_view};

use crate::pushing::{push_listed, push_names, push_optional, push_params, push_use};
use crate::used::{Role, Used};
use placed_sites::{Site, Spot};
use site_parts::{Standing, fields_at, members_at};
use std::alloc::{AllocError, Global};
use wr_base::{Declaration, Field, FullName, Member, Signature, TypeUse};

fn push_signature<'a>(
    list: &mut Vec<Used<'a>>,
    spot: Spot<'a>,
    sig: &'a Signature,
) -> Result<(), AllocError>
    ensures { OnOk result (map used_view list.new.items ≡ map used_view list.old.items ++ signature_uses (spot_view spot.entry) sig.now) }
{
    push_params(list, spot, sig.params.as_slice())?;
    push_optional(list, Role::Passed, spot, &sig.result)
}

fn push_member<'a>(
    list: &mut Vec<Used<'a>>,
    member: &Standing<'a, Member>,
) -> Result<(), AllocError>
    ensures { OnOk result (map used_view list.new.items ≡ map used_view list.old.items ++ member_uses member.now) }
{
    match member.part() {
        Member::Method { sig, .. } => push_signature(list, member.spot(), sig),
        Member::Property { ty, .. } => push_use(list, Role::Passed, member.spot(), ty),
        Member::Event { ty, .. } => push_use(list, Role::Event, member.spot(), ty),
    }
}

fn push_members<'a>(
    list: &mut Vec<Used<'a>>,
    members: &[Standing<'a, Member>],
) -> Result<(), AllocError>
    ensures { OnOk result (map used_view list.new.items ≡ map used_view list.old.items ++ flat_map member_uses members.now) }
{
    for member in members {
        push_member(list, member)?;
    }
    Ok(())
}

fn push_field<'a>(list: &mut Vec<Used<'a>>, member: &Standing<'a, Field>) -> Result<(), AllocError>
    ensures { OnOk result (map used_view list.new.items ≡ map used_view list.old.items ++ used_at field member.now.spot member.now.part.ty ∷ []) }
{
    push_use(list, Role::Field, member.spot(), &member.part().ty)
}

fn push_fields<'a>(
    list: &mut Vec<Used<'a>>,
    fields: &[Standing<'a, Field>],
) -> Result<(), AllocError>
    ensures { OnOk result (map used_view list.new.items ≡ map used_view list.old.items ++ map (λ f. used_at field f.spot f.part.ty) fields.now) }
{
    for part in fields {
        push_field(list, part)?;
    }
    Ok(())
}

fn push_struct<'a>(
    alloc: Global,
    list: &mut Vec<Used<'a>>,
    site: &Site<'a>,
) -> Result<(), AllocError>
    ensures { OnOk result (map used_view list.new.items ≡ map used_view list.old.items ++ map (λ f. used_at field f.spot f.part.ty) (fields_at (site_view site.now))) }
{
    let fields = fields_at(alloc, site)?;
    push_fields(list, fields.as_slice())
}

fn push_interface<'a>(
    alloc: Global,
    list: &mut Vec<Used<'a>>,
    site: &Site<'a>,
) -> Result<(), AllocError>
    ensures { OnOk result (map used_view list.new.items ≡ map used_view list.old.items ++ flat_map member_uses (members_at (site_view site.now))) }
{
    let members = members_at(alloc, site)?;
    push_members(list, members.as_slice())
}

// The default of a class and its interfaces.
fn push_interfaces<'a>(
    list: &mut Vec<Used<'a>>,
    spot: Spot<'a>,
    default: &'a Option<TypeUse>,
    has: &'a [TypeUse],
) -> Result<(), AllocError>
    ensures { OnOk result (map used_view list.new.items ≡ map used_view list.old.items ++ (optional listed (spot_view spot.entry) default.now ++ map (used_at listed (spot_view spot.entry)) has.now)) }
{
    push_optional(list, Role::Listed, spot, default)?;
    push_listed(list, spot, has)
}

// The names of a class's factories and statics.
fn push_makers<'a>(
    list: &mut Vec<Used<'a>>,
    spot: Spot<'a>,
    factories: &'a [FullName],
    statics: &'a [FullName],
) -> Result<(), AllocError>
    ensures { OnOk result (map used_view list.new.items ≡ map used_view list.old.items ++ (map (name_at (spot_view spot.entry)) factories.now ++ map (name_at (spot_view spot.entry)) statics.now)) }
{
    push_names(list, spot, factories)?;
    push_names(list, spot, statics)
}

fn push_all<'a>(alloc: Global, list: &mut Vec<Used<'a>>, site: &Site<'a>) -> Result<(), AllocError>
    ensures { OnOk result (map used_view list.new.items ≡ map used_view list.old.items ++ uses_at (site_view site.now)) }
{
    match site.declaration {
        Declaration::Enum { .. } => Ok(()),
        Declaration::Struct { .. } => push_struct(alloc, list, site),
        Declaration::Delegate { invoke, .. } => push_signature(list, site.spot(), invoke),
        Declaration::Interface { requires_, .. } => {
            push_listed(list, site.spot(), requires_.as_slice())?;
            push_interface(alloc, list, site)
        }
        Declaration::Class {
            default,
            has,
            factories,
            statics,
            ..
        } => {
            push_interfaces(list, site.spot(), default, has.as_slice())?;
            push_makers(list, site.spot(), factories.as_slice(), statics.as_slice())
        }
    }
}

/// All uses of a declaration, in order.
pub fn uses_at<'a>(alloc: Global, site: &Site<'a>) -> Result<Vec<Used<'a>>, AllocError>
    ensures { IfOk result (λ list. map used_view list.items ≡ uses_at (site_view site.now)) }
{
    let mut list = Vec::new(alloc);
    push_all(alloc, &mut list, site)?;
    Ok(list)
}
