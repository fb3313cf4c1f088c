//! The fields of an enum: cases by flag 0x40, and the others.

ghost use Rattle.std.specs.Prelude.{◌≡◌, IfOk, map};
ghost use Rattle.md_schema.specs.declared.table.Table.TheVariants as tables;
ghost use Rattle.winmd_cells.specs.Given.{Gives};
ghost use Rattle.winmd_cells.specs.Seen.{seen, tables_in};
ghost use Rattle.winmd_fields.specs.Seen.{mark_seen};
ghost use Rattle.winmd_rows.specs.Faults.{each};
ghost use Rattle.winmd_sets.specs.Fields as fields_as;

use md_schema::{ImageFault, Table};
use ranked::{Memory, Stop};
use std::alloc::Global;
use winmd_cells::has_flag;
use winmd_source::Source;

/// A field, and whether it is a case.
#[derive(Clone, Copy)]
pub struct Mark {
    pub is_case: bool,
    pub field: u32,
}

fn marked(source: &Source<'_>, field: u32) -> Result<Mark, Stop<ImageFault>>
    ensures { Gives (mark_seen source.now.image) result (fields_as.marked (seen source.now.image tables.Field field)) }
{
    let flags = source.image.number(Table::Field, field, 0)?;
    Ok(Mark {
        is_case: has_flag(flags, 0x40),
        field,
    })
}

/// Fields with their marks.
pub(crate) fn marks(
    alloc: Global,
    source: &Source<'_>,
    fields: &[u32],
) -> Result<Vec<Mark>, Stop<ImageFault>>
    ensures { Gives (λ x. map (mark_seen source.now.image) x.items) result (each fields_as.marked (map (seen source.now.image tables.Field) fields.now)) }
{
    let mut marks = Vec::new(alloc);
    let mut rest = fields;
    'each: while let Some((field, after)) = rest.split_first() {
        let mark = marked(source, *field)?;
        marks.push(mark)?;
        rest = after;
    }
    Ok(marks)
}

/// The fields that are cases, or those that aren't.
pub(crate) fn of_mark(
    alloc: Global,
    source: &Source<'_>,
    is_case: bool,
    marks: &[Mark],
) -> Result<Vec<u32>, Memory>
    ensures { IfOk result (λ x. map (seen source.now.image tables.Field) x.items ≡ fields_as.of_mark is_case (map (mark_seen source.now.image) marks.now)) }
{
    let mut fields = Vec::new(alloc);
    let mut rest = marks;
    'each: while let Some((mark, after)) = rest.split_first() {
        if mark.is_case == is_case {
            fields.push(mark.field)?;
        }
        rest = after;
    }
    Ok(fields)
}
