//! Questions on uses.

ghost use Rattle.std.specs.Prelude.{◌≡◌, ◌||◌, map, codes};
ghost use Rattle.std.specs.Str.{bytes_eq};
ghost use Rattle.found_table.specs.Table.{foundation};
ghost use Rattle.std.specs.List.{list_any};
ghost use Rattle.wr_base.specs.Trees.{list_of, uses_of, tree_of};
ghost use Rattle.wr_rules.specs.UseRules.{is_by_name, is_event, is_field, is_listed, is_object, is_object_like, is_passed, no_field_type, refers_to_object, unresolved, wrong_kind};
ghost use Rattle.site_uses.specs.Views.{role_view, shape_view};

use crate::kinds::{names_referred, names_value};
use crate::types_used::used;
use site_uses::{Role, Shape, shape_of};
use wr_base::{Base, FullName, TypeUse, Types};

pub(crate) fn is_by_name(role: Role) -> bool
    ensures { result ≡ is_by_name (role_view role) }
{
    match role {
        Role::ByName => true,
        _ => false,
    }
}

pub(crate) fn is_field(role: Role) -> bool
    ensures { result ≡ is_field (role_view role) }
{
    match role {
        Role::Field => true,
        _ => false,
    }
}

pub(crate) fn is_passed(role: Role) -> bool
    ensures { result ≡ is_passed (role_view role) }
{
    match role {
        Role::Passed => true,
        _ => false,
    }
}

pub(crate) fn is_event(role: Role) -> bool
    ensures { result ≡ is_event (role_view role) }
{
    match role {
        Role::Event => true,
        _ => false,
    }
}

pub(crate) fn is_listed(role: Role) -> bool
    ensures { result ≡ is_listed (role_view role) }
{
    match role {
        Role::Listed => true,
        Role::ByName => true,
        _ => false,
    }
}

fn is_object(base: Base) -> bool
    ensures { result ≡ is_object base }
{
    match base {
        Base::Object => true,
        _ => false,
    }
}

pub(crate) fn unresolved(types: &Types, shape: &Shape) -> bool
    ensures { result ≡ unresolved types.now (shape_view shape.now) }
{
    match shape {
        Shape::Plain(_) => false,
        Shape::Value(_) => used(types, shape).is_none(),
        Shape::Reference(_) => used(types, shape).is_none(),
        Shape::Instance(_, _) => used(types, shape).is_none(),
    }
}

pub(crate) fn wrong_kind(types: &Types, shape: &Shape) -> bool
    ensures { result ≡ wrong_kind types.now (shape_view shape.now) }
{
    match shape {
        Shape::Plain(_) => false,
        Shape::Value(_) => !names_value(types, shape),
        Shape::Reference(_) => names_value(types, shape),
        Shape::Instance(_, _) => false,
    }
}

pub(crate) fn no_field_type(types: &Types, shape: &Shape) -> bool
    ensures { result ≡ no_field_type types.now (shape_view shape.now) }
{
    match shape {
        Shape::Plain(base) => is_object(*base),
        Shape::Value(_) => !names_value(types, shape),
        Shape::Reference(_) => !names_value(types, shape),
        Shape::Instance(_, _) => !names_value(types, shape),
    }
}

fn is_object_like(types: &Types, shape: &Shape) -> bool
    ensures { result ≡ is_object_like types.now (shape_view shape.now) }
{
    match shape {
        Shape::Plain(base) => is_object(*base),
        Shape::Value(_) => names_referred(types, shape),
        Shape::Reference(_) => names_referred(types, shape),
        Shape::Instance(_, _) => names_referred(types, shape),
    }
}

fn either(a: bool, b: bool) -> bool
    ensures { result ≡ (a || b) }
{
    a || b
}

fn any_object_like(types: &Types, uses: &[TypeUse]) -> bool
    ensures { result ≡ list_any (is_object_like types.now) (list_of (uses_of (map tree_of uses.now))) }
{
    let mut found = false;
    for ty in uses {
        found = either(found, is_object_like(types, &shape_of(ty)));
    }
    found
}

fn is_reference_template(name: &FullName) -> bool
    ensures { result ≡ bytes_eq name.now (foundation (codes "IReference")) }
{
    name.as_str() == "Windows.Foundation.IReference"
}

pub(crate) fn refers_to_object(types: &Types, shape: &Shape) -> bool
    ensures { result ≡ refers_to_object types.now (shape_view shape.now) }
{
    match shape {
        Shape::Instance(name, arguments) => {
            is_reference_template(*name) && any_object_like(types, *arguments)
        }
        _ => false,
    }
}
