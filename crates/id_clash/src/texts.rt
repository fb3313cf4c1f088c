//! The texts of the instances that a declaration uses, at any depth.

ghost use Rattle.std.specs.Prelude.{◌≡◌, ◌∷◌, [], IfOk, OnOk, map};
ghost use Rattle.std.specs.List.{flat_map};
ghost use Rattle.wr_base.specs.Trees.{tree_of};
ghost use Rattle.wr_rules.specs.Uses as uses;
ghost use Rattle.placed_sites.specs.Views.{site_view};
ghost use Rattle.site_uses.specs.Views.{shape_view, used_view};
ghost use Rattle.id_rules.specs.Table.{instances_within};
ghost use Rattle.id_clash.specs.Items.{Puts, texts_in, texts_at};

use id_rules::instance_of;
use placed_sites::Site;
use site_uses::{Shape, Used, uses_at};
use std::alloc::{AllocError, Global};
use wr_base::TypeUse;

fn push_one(alloc: Global, texts: &mut Vec<String>, ty: &TypeUse) -> Result<(), AllocError>
    ensures { OnOk result (Puts (tree_of ty.now ∷ []) (texts_in texts.old.items) (texts_in texts.new.items)) }
{
    let text = ty.text(alloc)?;
    texts.push(text)?;
    Ok(())
}

fn push_within(alloc: Global, texts: &mut Vec<String>, ty: &TypeUse) -> Result<(), AllocError>
    ensures { OnOk result (Puts (instances_within (tree_of ty.now)) (texts_in texts.old.items) (texts_in texts.new.items)) }
{
    match ty {
        TypeUse::Inst(_, arguments) => {
            push_one(alloc, texts, ty)?;
            for argument in arguments.as_slice() {
                push_within(alloc, texts, argument)?;
            }
            Ok(())
        }
        TypeUse::Plain(_) => Ok(()),
        TypeUse::Value(_) => Ok(()),
        TypeUse::Reference(_) => Ok(()),
    }
}

fn push_shape(alloc: Global, texts: &mut Vec<String>, shape: &Shape) -> Result<(), AllocError>
    ensures { OnOk result (Puts (instances_within (shape_view shape.now)) (texts_in texts.old.items) (texts_in texts.new.items)) }
{
    match shape {
        Shape::Instance(name, arguments) => {
            let ty = instance_of(alloc, name, arguments)?;
            push_within(alloc, texts, &ty)
        }
        Shape::Plain(_) => Ok(()),
        Shape::Value(_) => Ok(()),
        Shape::Reference(_) => Ok(()),
    }
}

fn push_used<'a>(
    alloc: Global,
    texts: &mut Vec<String>,
    used: &[Used<'a>],
) -> Result<(), AllocError>
    ensures { OnOk result (Puts (flat_map (λ (u : uses.Used). instances_within u.use_) (map used_view used.now)) (texts_in texts.old.items) (texts_in texts.new.items)) }
{
    for one in used {
        push_shape(alloc, texts, &one.shape)?;
    }
    Ok(())
}

/// The texts of the instances that the declaration uses, in order, as often as it uses them.
pub(crate) fn texts_at(alloc: Global, site: &Site) -> Result<Vec<String>, AllocError>
    ensures { IfOk result (λ texts. texts_in texts.items ≡ texts_at (site_view site.now)) }
{
    let used = uses_at(alloc, site)?;
    let mut texts = Vec::new(alloc);
    push_used(alloc, &mut texts, used.as_slice())?;
    Ok(texts)
}
