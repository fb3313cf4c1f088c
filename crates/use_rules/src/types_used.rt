//! What a use means.

ghost use Rattle.std.specs.Prelude.{◌≡◌, option_map, map, length};
ghost use Rattle.wr_base.specs.Trees.{list_of, uses_of, tree_of};
ghost use Rattle.wr_rules.specs.Kinds.{used, named};
ghost use Rattle.pinterface_id.specs.Views.{meaning_view};
ghost use Rattle.site_uses.specs.Views.{shape_view};

use pinterface_id::{Meaning, named};
use site_uses::Shape;
use wr_base::{TypeUse, Types};

#[tactic(auto, using(crate::proofs::Counts::count_of_uses))]
fn count(arguments: &[TypeUse]) -> usize
    ensures { result ≡ length (list_of (uses_of (map tree_of arguments.now))) }
{
    arguments.len()
}

/// The declared or found type that a use names with so many arguments.
pub(crate) fn used<'a>(types: &'a Types, shape: &Shape) -> Option<Meaning<'a>>
    ensures { option_map meaning_view result ≡ used types.now (shape_view shape.now) }
{
    match shape {
        Shape::Plain(_) => None,
        Shape::Value(name) => named(types, *name, 0),
        Shape::Reference(name) => named(types, *name, 0),
        Shape::Instance(name, arguments) => named(types, *name, count(*arguments)),
    }
}
