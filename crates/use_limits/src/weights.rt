//! What uses weigh. A sum that is more than a `u64` holds stays at the greatest.

ghost use Rattle.std.specs.Prelude.{◌≡◌, ◌+◌, ℕ, List, map};
ghost use Rattle.std.specs.List.{sum_by};
ghost use Rattle.wr_base.specs.Trees.{tree_of, uses_of, within, among};
ghost use Rattle.wr_rules.specs.UseRules.{inner};
ghost use Rattle.site_uses.specs.Views.{shape_view, used_view};
ghost use Rattle.set_limits.specs.Counts.{capped};
ghost use Rattle.use_limits.specs.Weights.{weight_of, weight_at};

use site_uses::{Shape, Used, shape_of};
use wr_base::TypeUse;

/// What a use weighs by itself.
pub trait UseWeight {
    ghost use Rattle.std.specs.Prelude.{ℕ};
    ghost use Rattle.wr_base.specs.Trees.{UseTree};
    ghost use Rattle.set_limits.specs.Counts.{capped};

    ghost weigh: { Self → UseTree → ℕ };

    /// Its weight.
    fn weight(&self, shape: &Shape) -> u64
        ensures { result ≡ capped (weigh self.now (shape_view shape.now)) };
}

/// Each base and each name is one.
#[derive(Clone, Copy, Debug)]
pub struct Words;

impl UseWeight for Words {
    ghost use Rattle.use_limits.specs.Weights.{one_word};

    ghost weigh = { λ _. one_word };

    fn weight(&self, _shape: &Shape) -> u64 {
        1
    }
}

/// The bytes of the full name, where there is one.
#[derive(Clone, Copy, Debug)]
pub struct Bytes;

impl UseWeight for Bytes {
    ghost use Rattle.use_limits.specs.Weights.{name_bytes};

    ghost weigh = { λ _. name_bytes };

    fn weight(&self, shape: &Shape) -> u64 {
        match shape {
            Shape::Plain(_) => 0,
            Shape::Value(name) => name.as_str().len() as u64,
            Shape::Reference(name) => name.as_str().len() as u64,
            Shape::Instance(name, _) => name.as_str().len() as u64,
        }
    }
}

pub(crate) fn add(a: u64, b: u64) -> u64
    ensures { result ≡ capped (a + b) }
{
    a.saturating_add(b)
}

fn weigh_use<W: UseWeight>(weight: &W, ty: &TypeUse) -> u64
    ensures { result ≡ capped (weight_of (W.weigh weight.now) (tree_of ty.now)) }
{
    let mut total = weight.weight(&shape_of(ty));
    match ty {
        TypeUse::Inst(_, arguments) => {
            for argument in arguments.as_slice() {
                total = add(total, weigh_use(weight, argument));
            }
            total
        }
        _ => total,
    }
}

fn weigh_among<W: UseWeight>(weight: &W, uses: &[TypeUse]) -> u64
    ensures { result ≡ capped (sum_by (W.weigh weight.now) (among (uses_of (map tree_of uses.now)))) }
{
    let mut total = 0u64;
    for ty in uses {
        total = add(total, weigh_use(weight, ty));
    }
    total
}

fn weigh_inside<W: UseWeight>(weight: &W, shape: &Shape) -> u64
    ensures { result ≡ capped (sum_by (W.weigh weight.now) (inner (shape_view shape.now))) }
{
    match shape {
        Shape::Instance(_, arguments) => weigh_among(weight, *arguments),
        _ => 0,
    }
}

fn weigh_shape<W: UseWeight>(weight: &W, shape: &Shape) -> u64
    ensures { result ≡ capped (weight_of (W.weigh weight.now) (shape_view shape.now)) }
{
    let own = weight.weight(shape);
    let inside = weigh_inside(weight, shape);
    add(own, inside)
}

/// What these uses weigh, each with what is within it.
pub fn weigh_used<W: UseWeight>(weight: &W, used: &[Used]) -> u64
    ensures { result ≡ capped (sum_by (weight_at (W.weigh weight.now)) (map used_view used.now)) }
{
    let mut total = 0u64;
    for one in used {
        total = add(total, weigh_shape(weight, &one.shape));
    }
    total
}
