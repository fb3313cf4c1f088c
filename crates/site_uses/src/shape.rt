//! The outermost level of a use.

ghost use Rattle.std.specs.Prelude.{◌≡◌};
ghost use Rattle.wr_base.specs.Trees.{tree_of};
ghost use Rattle.site_uses.specs.Views.{shape_view};

use wr_base::{Base, FullName, TypeUse};

/// A fundamental type, a name, or the name of a template with its arguments. The names of factories and statics are
/// references.
#[derive(Clone, Copy, Debug)]
pub enum Shape<'a> {
    Plain(Base),
    Value(&'a FullName),
    Reference(&'a FullName),
    Instance(&'a FullName, &'a [TypeUse]),
}

/// The level of a use.
#[tactic(auto, using(wr_base::proofs::TreeLaws::tree_Plain, wr_base::proofs::TreeLaws::tree_Value, wr_base::proofs::TreeLaws::tree_Reference, wr_base::proofs::TreeLaws::tree_Inst))]
pub fn shape_of(ty: &TypeUse) -> Shape
    ensures { shape_view result ≡ tree_of ty.now }
{
    match ty {
        TypeUse::Plain(base) => Shape::Plain(*base),
        TypeUse::Value(name) => Shape::Value(name),
        TypeUse::Reference(name) => Shape::Reference(name),
        TypeUse::Inst(name, arguments) => Shape::Instance(name, arguments.as_slice()),
    }
}
