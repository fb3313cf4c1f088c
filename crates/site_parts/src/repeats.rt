//! Items that repeat the key of an earlier one.

ghost use Rattle.std.specs.Prelude.{◌≡◌, Bool, not, IfOk, string_bytes};
ghost use Rattle.std.specs.BTreeSet.{contains_text};
ghost use Rattle.ranked.specs.First.{IsFirst};
ghost use Rattle.ranked.specs.Repeats.{Repeated};
ghost use Rattle.wr_rules.specs.Sites.{broken_at};
ghost use Rattle.placed_sites.specs.Views.{spot_view, give};
ghost use Rattle.site_parts.specs.Marks.{Marks};

use placed_sites::{Spot, refuse_if};
use ranked::earlier;
use std::alloc::{AllocError, Global};
use std::collections::BTreeSet;
use wr_base::{Code, Refusal};

/// Items that have a text of which each is to stand once, and the spot where a later one is refused.
pub trait Repeats<X> {
    ghost use Rattle.std.specs.Prelude.{ℕ, List};
    ghost use Rattle.wr_rules.specs.Sites as sites;

    ghost key: { Self → X → List ℕ };

    ghost spot: { Self → X → sites.Spot };

    /// The text.
    fn key(&self, alloc: Global, item: &X) -> Result<String, AllocError>
        ensures { IfOk result (λ r. string_bytes r ≡ key self.now item.now) };

    /// Where the item stands.
    fn spot<'s>(&'s self, item: &'s X) -> Spot<'s>
        ensures { spot_view result ≡ spot self.now item.now };
}

// Whether the text is none of those that were met, among which it is put.
fn mark(met: &mut BTreeSet<String>, text: String) -> Result<bool, AllocError>
    ensures { IfOk result (λ is_new. Marks (string_bytes text) is_new (contains_text met.old) (contains_text met.new)) }
{
    let is_new = met.insert(text)?;
    Ok(is_new)
}

// Refused where the text of the item was met.
fn refuse_met<X, R: Repeats<X>>(
    alloc: Global,
    rule: &R,
    item: &X,
    met: &mut BTreeSet<String>,
    code: Code,
) -> Result<Option<Refusal>, AllocError>
    ensures { IfOk result (λ r. (is_new : Bool) × (r ≡ give (not is_new) (broken_at code (R.spot rule.now item.now))) × Marks (R.key rule.now item.now) is_new (contains_text met.old) (contains_text met.new)) }
{
    let text = rule.key(alloc, item)?;
    let is_new = mark(met, text)?;
    refuse_if(alloc, &rule.spot(item), !is_new, code)
}

/// The first item whose text an earlier one has.
#[tactic(auto, using(ranked::proofs::FirstLaws::none_below, ranked::proofs::RepeatLaws::none_seen))]
pub fn first_repeat<X, R: Repeats<X>>(
    alloc: Global,
    rule: &R,
    items: &[X],
    code: Code,
) -> Result<Option<Refusal>, AllocError>
    ensures { IfOk result (IsFirst (Repeated (R.key rule.now) (λ x. broken_at code (R.spot rule.now x)) items.now)) }
{
    let mut met = BTreeSet::new(alloc);
    let mut first = None;
    for item in items {
        first = earlier(first, refuse_met(alloc, rule, item, &mut met, code)?);
    }
    Ok(first)
}
