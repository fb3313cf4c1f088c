//! Uses put behind others.

ghost use Rattle.std.specs.Prelude.{◌≡◌, ◌++◌, ◌∷◌, [], OnOk, map};
ghost use Rattle.wr_rules.specs.Uses.{used_at, name_at, optional, passed, listed};
ghost use Rattle.placed_sites.specs.Views.{spot_view};
ghost use Rattle.site_uses.specs.Views.{role_view, used_view};

use crate::shape::{Shape, shape_of};
use crate::used::{Role, Used};
use placed_sites::Spot;
use std::alloc::AllocError;
use wr_base::{FullName, Param, TypeUse};

fn push<'a>(list: &mut Vec<Used<'a>>, used: Used<'a>) -> Result<(), AllocError>
    ensures { OnOk result (map used_view list.new.items ≡ map used_view list.old.items ++ used_view used.entry ∷ []) }
{
    list.push(used)?;
    Ok(())
}

fn push_name<'a>(
    list: &mut Vec<Used<'a>>,
    spot: Spot<'a>,
    name: &'a FullName,
) -> Result<(), AllocError>
    ensures { OnOk result (map used_view list.new.items ≡ map used_view list.old.items ++ name_at (spot_view spot.entry) name.now ∷ []) }
{
    let used = Used {
        role: Role::ByName,
        spot,
        shape: Shape::Reference(name),
    };
    push(list, used)
}

/// A use in a role.
pub(crate) fn push_use<'a>(
    list: &mut Vec<Used<'a>>,
    role: Role,
    spot: Spot<'a>,
    ty: &'a TypeUse,
) -> Result<(), AllocError>
    ensures { OnOk result (map used_view list.new.items ≡ map used_view list.old.items ++ used_at (role_view role) (spot_view spot.entry) ty.now ∷ []) }
{
    let shape = shape_of(ty);
    push(list, Used { role, spot, shape })
}

/// The use, where there is one.
pub(crate) fn push_optional<'a>(
    list: &mut Vec<Used<'a>>,
    role: Role,
    spot: Spot<'a>,
    ty: &'a Option<TypeUse>,
) -> Result<(), AllocError>
    ensures { OnOk result (map used_view list.new.items ≡ map used_view list.old.items ++ optional (role_view role) (spot_view spot.entry) ty.now) }
{
    match ty {
        None => Ok(()),
        Some(ty) => push_use(list, role, spot, ty),
    }
}

/// Uses that are listed.
pub(crate) fn push_listed<'a>(
    list: &mut Vec<Used<'a>>,
    spot: Spot<'a>,
    uses: &'a [TypeUse],
) -> Result<(), AllocError>
    ensures { OnOk result (map used_view list.new.items ≡ map used_view list.old.items ++ map (used_at (listed) (spot_view spot.entry)) uses.now) }
{
    for ty in uses {
        push_use(list, Role::Listed, spot, ty)?;
    }
    Ok(())
}

/// Names of factories or statics.
pub(crate) fn push_names<'a>(
    list: &mut Vec<Used<'a>>,
    spot: Spot<'a>,
    names: &'a [FullName],
) -> Result<(), AllocError>
    ensures { OnOk result (map used_view list.new.items ≡ map used_view list.old.items ++ map (name_at (spot_view spot.entry)) names.now) }
{
    for name in names {
        push_name(list, spot, name)?;
    }
    Ok(())
}

/// The types of parameters.
pub(crate) fn push_params<'a>(
    list: &mut Vec<Used<'a>>,
    spot: Spot<'a>,
    params: &'a [Param],
) -> Result<(), AllocError>
    ensures { OnOk result (map used_view list.new.items ≡ map used_view list.old.items ++ map (λ p. used_at passed (spot_view spot.entry) p.ty) params.now) }
{
    for param in params {
        push_use(list, Role::Passed, spot, &param.ty)?;
    }
    Ok(())
}
