//! The limits of a set, and that no full name stands twice.

ghost use Rattle.std.specs.Prelude.{◌≡◌, ◌≤◌, ◌<◌, ◌∷◌, List, IfOk, OnOk, map, true};
ghost use Rattle.md_schema.specs.declared.table.Table.TheVariants as tables;
ghost use Rattle.winmd_cells.specs.Given.{Gives};
ghost use Rattle.winmd_cells.specs.Seen.{tables_in};
ghost use Rattle.winmd_lines.specs.Cells as cells_as;
ghost use Rattle.winmd_rows.specs.Faults.{checked};
ghost use Rattle.winmd_set.specs.Counts.{Counts};
ghost use Rattle.winmd_set.specs.Stated.{stated_seen};
ghost use Rattle.winmd_set.specs.Steps.{step_of, steps_of, within_limits};
ghost use Rattle.winmd_set.specs.declared.stated.Stated.{Stated};

use crate::counts::{count_names, stands_again};
use crate::parts::{add, all_parts_of};
use crate::stated::Stated;
use md_schema::{ImageFault, ImageKind, Table};
use ranked::Stop;
use std::alloc::Global;
use std::collections::HashMap;
use winmd_cells::Image;
use winmd_source::refused;

/// The most types of a set.
const MOST_TYPES: u64 = 20_000;

/// The most cases, fields, members and parameters of a set.
const MOST_PARTS: u64 = 500_000;

// A test that has to hold, for a column of a row of TypeDef.
fn check(
    image: &Image<'_>,
    holds: bool,
    kind: ImageKind,
    row: u32,
    column: usize,
) -> Result<(), Stop<ImageFault>>
    ensures { Gives (λ x. true) result (checked holds kind (cells_as.at (tables_in image.now) tables.TypeDef row column)) }
{
    if holds {
        Ok(())
    } else {
        Err(refused(kind, image.offset(Table::TypeDef, row, column)))
    }
}

// How many parts there are with it.
#[tactic(auto, using(crate::proofs::CapLaws::is_small, crate::proofs::CapLaws::small_sum))]
fn within_limits(
    image: &Image<'_>,
    types: u64,
    parts: u64,
    stated: &Stated,
) -> Result<u64, Stop<ImageFault>>
    requires { parts ≤ 500000 }
    ensures limits { Gives (λ x. x) result (within_limits (tables_in image.now) types parts (stated_seen stated.now)) }
    ensures types { OnOk result (types < 20000) }
    ensures parts { IfOk result (λ x. x ≤ 500000) }
{
    let all = add(parts, all_parts_of(&stated.declaration));
    check(
        image,
        types < MOST_TYPES,
        ImageKind::PastLimit,
        stated.row,
        0,
    )?;
    check(
        image,
        all <= MOST_PARTS,
        ImageKind::PastLimit,
        stated.row,
        0,
    )?;
    Ok(all)
}

// The tests of a declaration, behind so many types with so many parts.
fn step(
    alloc: Global,
    image: &Image<'_>,
    counts: &mut HashMap<String, u64>,
    types: u64,
    parts: u64,
    stated: &Stated,
) -> Result<u64, Stop<ImageFault>>
    requires { parts ≤ 500000 }
    ensures step { (rest : List Stated) → Counts counts.old (stated.now ∷ rest) → Gives (λ x. x) result (step_of (tables_in image.now) types parts (stated_seen stated.now) (map stated_seen rest)) }
    ensures rest { OnOk result ((rest : List Stated) → Counts counts.old (stated.now ∷ rest) → Counts counts.new rest) }
    ensures types { OnOk result (types < 20000) }
    ensures parts { IfOk result (λ x. x ≤ 500000) }
{
    let all = within_limits(image, types, parts, stated)?;
    let again = stands_again(alloc, counts, stated)?;
    check(image, !again, ImageKind::BadShape, stated.row, 1)?;
    Ok(all)
}

fn check_rest(
    alloc: Global,
    image: &Image<'_>,
    counts: &mut HashMap<String, u64>,
    list: &[Stated],
) -> Result<(), Stop<ImageFault>>
    requires { Counts counts.old list.now }
    ensures { Gives (λ x. true) result (steps_of (tables_in image.now) 0 0 (map stated_seen list.now)) }
{
    let mut types = 0u64;
    let mut parts = 0u64;
    let mut rest = list;
    'each: while let Some((first, after)) = rest.split_first() {
        parts = step(alloc, image, counts, types, parts, first)?;
        types += 1;
        rest = after;
    }
    Ok(())
}

/// Whether declarations are a set, in the order of their rows, or the first fault.
pub(crate) fn check_all(
    alloc: Global,
    image: &Image<'_>,
    list: &[Stated],
) -> Result<(), Stop<ImageFault>>
    ensures { Gives (λ x. true) result (steps_of (tables_in image.now) 0 0 (map stated_seen list.now)) }
{
    let mut counts = count_names(alloc, list)?;
    check_rest(alloc, image, &mut counts, list)
}
