//! The constants of an enum's cases.

ghost use Rattle.std.specs.Prelude.{◌≡◌, ◌==◌, ◌&&◌, length, map};
ghost use Rattle.md_schema.specs.declared.table.Table.TheVariants as tables;
ghost use Rattle.winmd_cells.specs.Given.{Gives};
ghost use Rattle.winmd_cells.specs.Seen.{seen, tables_in};
ghost use Rattle.winmd_rows.specs.Faults.{each};
ghost use Rattle.winmd_rows.specs.Bits.{int_of_bits};
ghost use Rattle.winmd_sets.specs.Fields as fields_as;
ghost use Rattle.winmd_sets.specs.Members as members_as;

use md_bytes::number;
use md_schema::{ImageFault, ImageKind, Table};
use ranked::Stop;
use std::alloc::Global;
use winmd_source::{Source, refused};
use wr_base::Case;

fn value_of(flags: bool, bits: u32) -> i128
    ensures { result ≡ int_of_bits flags bits }
{
    if flags || bits < 0x8000_0000 {
        bits as i128
    } else {
        bits as i128 - 0x1_0000_0000
    }
}

fn element(flags: bool) -> u32
    ensures { result ≡ members_as.element flags }
{
    if flags { 9 } else { 8 }
}

fn fits(flags: bool, kind: u32, blob: &[u8]) -> bool
    ensures { result ≡ (kind == members_as.element flags && length blob.now == 4) }
{
    kind == element(flags) && blob.len() == 4
}

/// The constant of a field, of this type, in four bytes.
fn constant_of(source: &Source<'_>, flags: bool, field: u32) -> Result<u32, Stop<ImageFault>>
    ensures { Gives (λ x. x) result (fields_as.constant_of (tables_in source.now.image) flags field) }
{
    let row = source.the_one(
        Table::Constant,
        source.image.offset(Table::Field, field, 0),
        source.constants_of(field),
    )?;
    let kind = source.image.number(Table::Constant, row, 0)?;
    let blob = source.image.bytes(Table::Constant, row, 3)?;
    if fits(flags, kind, blob) {
        Ok(number(blob))
    } else {
        Err(refused(
            ImageKind::BadShape,
            source.image.offset(Table::Constant, row, 3),
        ))
    }
}

fn case_of(
    alloc: Global,
    source: &Source<'_>,
    flags: bool,
    field: u32,
) -> Result<Case, Stop<ImageFault>>
    ensures { Gives (λ x. x) result (fields_as.case_of (tables_in source.now.image) flags (seen source.now.image tables.Field field)) }
{
    let name = source.name_in(alloc, Table::Field, field, 1)?;
    let bits = constant_of(source, flags, field)?;
    Ok(Case {
        name,
        value: value_of(flags, bits),
    })
}

/// The cases of fields.
pub(crate) fn cases_of(
    alloc: Global,
    source: &Source<'_>,
    flags: bool,
    fields: &[u32],
) -> Result<Vec<Case>, Stop<ImageFault>>
    ensures { Gives (λ x. x.items) result (each (fields_as.case_of (tables_in source.now.image) flags) (map (seen source.now.image tables.Field) fields.now)) }
{
    let mut cases = Vec::new(alloc);
    let mut rest = fields;
    'each: while let Some((field, after)) = rest.split_first() {
        let case = case_of(alloc, source, flags, *field)?;
        cases.push(case)?;
        rest = after;
    }
    Ok(cases)
}
