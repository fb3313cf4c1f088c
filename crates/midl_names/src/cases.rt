//! The cases of an enum with their values.

ghost use Rattle.std.specs.Prelude.{◌≡◌, ℕ, ◌+◌, ◌^◌, ◌≤◌, ◌≤ℤ◌, pos, neg_ℤ, IfOk};
ghost use Rattle.std.specs.List.{All};
ghost use Rattle.midl_names.specs.Members.{signed, value_or, cases_from};
ghost use Rattle.placed_items.specs.Named.{IsName};

use crate::resolved::name_of;
use midl_tree::{CaseNode, Value};
use std::alloc::Global;
use wr_base::{Case, Cases, Listed, Memory};

fn signed(value: &Value) -> i128
    ensures value { result ≡ signed value.now }
    ensures low { neg_ℤ (pos (2 ^ 64)) ≤ℤ result }
    ensures high { result ≤ℤ pos (2 ^ 64) }
{
    let number = value.number.value() as i128;
    if value.negated { -number } else { number }
}

fn value_or(next: &i128, value: &Option<Value>) -> i128
    ensures value { result ≡ value_or next.now value.now }
    ensures low { neg_ℤ (pos (2 ^ 64)) ≤ℤ next.now → neg_ℤ (pos (2 ^ 64)) ≤ℤ result }
    ensures high { (top : ℕ) → 2 ^ 64 ≤ top → next.now ≤ℤ pos top → result ≤ℤ pos top }
{
    match value {
        None => *next,
        Some(value) => signed(value),
    }
}

/// The cases with their values: one without a value has the last one plus one, and the first has 0.
pub(crate) fn cases_of(alloc: Global, nodes: &[CaseNode]) -> Result<Cases, Memory>
    ensures value { IfOk result (λ cases. cases ≡ cases_from (pos 0) nodes.now) }
    ensures named { IfOk result (λ cases. All (λ c. IsName c.name) cases) }
{
    let mut cases = Vec::with_capacity(alloc, nodes.len())?;
    let mut next: i128 = 0;
    for node in nodes {
        let value = value_or(&next, &node.value);
        let name = name_of(alloc, &node.name)?;
        cases.push(Case { name, value })?;
        next = value + 1;
    }
    Ok(Listed::from_vec(cases))
}
