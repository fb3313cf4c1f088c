//! Questions on a use and the uses within it.

ghost use Rattle.std.specs.Prelude.{◌≡◌, ◌||◌, map};
ghost use Rattle.std.specs.List.{list_any};
ghost use Rattle.wr_base.specs.Trees.{tree_of, uses_of, within, among};
ghost use Rattle.wr_rules.specs.UseRules.{inner};
ghost use Rattle.site_uses.specs.Views.{shape_view};

use crate::shape::{Shape, shape_of};
use wr_base::TypeUse;

/// A question on a use.
pub trait UseTest {
    ghost use Rattle.std.specs.Prelude.{Bool};
    ghost use Rattle.wr_base.specs.Trees.{UseTree};

    ghost passes: { Self → UseTree → Bool };

    /// Whether it passes.
    fn passes(&self, shape: &Shape) -> bool
        ensures { result ≡ passes self.now (shape_view shape.now) };
}

fn either(a: bool, b: bool) -> bool
    ensures { result ≡ (a || b) }
{
    a || b
}

fn any_within_use<T: UseTest>(test: &T, ty: &TypeUse) -> bool
    ensures { result ≡ list_any (T.passes test.now) (within (tree_of ty.now)) }
{
    let mut found = test.passes(&shape_of(ty));
    match ty {
        TypeUse::Inst(_, arguments) => {
            for argument in arguments.as_slice() {
                found = either(found, any_within_use(test, argument));
            }
            found
        }
        _ => found,
    }
}

fn any_among<T: UseTest>(test: &T, uses: &[TypeUse]) -> bool
    ensures { result ≡ list_any (T.passes test.now) (among (uses_of (map tree_of uses.now))) }
{
    let mut found = false;
    for ty in uses {
        found = either(found, any_within_use(test, ty));
    }
    found
}

/// Whether a use within an instance passes, at any depth.
pub fn any_inside<T: UseTest>(test: &T, shape: &Shape) -> bool
    ensures { result ≡ list_any (T.passes test.now) (inner (shape_view shape.now)) }
{
    match shape {
        Shape::Instance(_, arguments) => any_among(test, *arguments),
        _ => false,
    }
}

/// Whether the use or one within it passes, at any depth.
pub fn any_within<T: UseTest>(test: &T, shape: &Shape) -> bool
    ensures { result ≡ list_any (T.passes test.now) (within (shape_view shape.now)) }
{
    either(test.passes(shape), any_inside(test, shape))
}
