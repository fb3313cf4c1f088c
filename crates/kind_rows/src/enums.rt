//! The rows of enums.

ghost use Rattle.std.specs.Prelude.{◌≡◌, ◌∷◌, [], OnOk, IfOk, IfSome, codes};
ghost use Rattle.std.specs.List.{flat_map};
ghost use Rattle.kind_rows.specs.Said.{said};
ghost use Rattle.md_schema.specs.declared.table.Table.TheVariants as tables;
ghost use Rattle.md_bytes.specs.Bytes.{le};
ghost use Rattle.part_rows.specs.Grown.{with_line, with_lines};
ghost use Rattle.part_rows.specs.Nothing.{nothing};
ghost use Rattle.row_writer.specs.Seen.{seen};
ghost use Rattle.sig_blobs.specs.Writing.{field_bytes};
ghost use Rattle.winmd_lines.specs.Lines.{line, Number, Last, Bytes};
ghost use Rattle.winmd_lines.specs.Makers as makers;
ghost use Rattle.winmd_lines.specs.Names.{token_of};
ghost use Rattle.winmd_rows.specs.Bits.{bits_of_int};
ghost use Rattle.winmd_sets.specs.Declared.{body_lines, lines_of};
ghost use Rattle.winmd_sets.specs.Members.{attribute, case_lines, element, field_line, when};
ghost use Rattle.wr_base.specs.Trees as trees;
ghost use Rattle.wr_base.specs.Trees.{tree_of, value};

use crate::attributes::{put_on, put_version};
use crate::makers::Maker;
use crate::methods::spell_field;
use crate::out::Out;
use crate::referred::Referred;
use crate::types::put_type;
use md_schema::Table;
use part_rows::{put_constant_row, put_field_row};
use ranked::Memory;
use row_writer::Writer;
use std::alloc::AllocError;
use wr_base::{Case, FullName, TypeUse};

fn element_of(flags: bool) -> u32
    ensures { result ≡ element flags }
{
    if flags { 9 } else { 8 }
}

/// The 32 bits of a case's value, as two's complement, where it has so many.
fn bits(case: &Case) -> Option<u32>
    ensures { IfSome result (λ n. n ≡ bits_of_int case.now.value) }
{
    if case.value >= 0 && case.value < 0x1_0000_0000 {
        Some(case.value as u32)
    } else if case.value < 0 && case.value > -0x1_0000_0000 {
        Some((case.value + 0x1_0000_0000) as u32)
    } else {
        None
    }
}

/// The four bytes of a number, low byte first.
fn word(n: u32) -> [u8; 4]
    ensures { result ≡ le 4 n }
{
    let second = n / 256;
    let third = second / 256;
    let fourth = third / 256;
    [
        (n % 256) as u8,
        (second % 256) as u8,
        (third % 256) as u8,
        (fourth % 256) as u8,
    ]
}

// The constant of a case. A value of more than 32 bits is want of memory.
fn put_value(writer: &mut Writer, flags: bool, case: &Case) -> Result<(), Memory>
    ensures { OnOk result (seen writer.new ≡ with_line nothing (line tables.Constant
        (Number (element flags) ∷ Number 0 ∷ Last tables.Field ∷ Bytes (le 4 (bits_of_int case.now.value)) ∷ [])) (seen writer.old)) }
{
    match bits(case) {
        Some(bits) => put_constant_row(writer, element_of(flags), &word(bits)),
        None => Err(AllocError),
    }
}

// A case, whose field has this signature, that of the enum's own type.
fn put_case<N: Referred>(
    writer: &mut Writer,
    names: &N,
    own: &[u8],
    name: &FullName,
    flags: bool,
    case: &Case,
) -> Result<(), Memory>
    requires { own.now ≡ field_bytes (token_of (N.names names.now)) (value name.now) }
    ensures { OnOk result (seen writer.new ≡ with_lines (N.names names.now) (case_lines name.now flags case.now) (seen writer.old)) }
{
    put_field_row(writer, 0x8056, case.name.as_str(), own)?;
    put_value(writer, flags, case)
}

fn put_cases<N: Referred>(
    writer: &mut Writer,
    names: &N,
    own: &[u8],
    name: &FullName,
    flags: bool,
    cases: &[Case],
) -> Result<(), Memory>
    requires { own.now ≡ field_bytes (token_of (N.names names.now)) (value name.now) }
    ensures { OnOk result (seen writer.new ≡ with_lines (N.names names.now) (flat_map (case_lines name.now flags) cases.now) (seen writer.old)) }
{
    for case in cases {
        put_case(writer, names, own, name, flags, case)?;
    }
    Ok(())
}

#[tactic(auto, using(wr_base::proofs::TreeLaws::tree_Value))]
fn own_type(name: &FullName) -> Result<TypeUse, Memory>
    ensures { IfOk result (λ ty. tree_of ty ≡ value name.now) }
{
    Ok(TypeUse::Value(name.clone()?))
}

// The cases, with the signature of the enum's own type in the buffer.
fn put_own_cases<N: Referred>(
    out: &mut Out,
    names: &N,
    name: &FullName,
    flags: bool,
    cases: &[Case],
) -> Result<(), Memory>
    ensures { OnOk result (said out.new ≡ with_lines (N.names names.now) (flat_map (case_lines name.now flags) cases.now) (said out.old)) }
{
    let own = own_type(name)?;
    spell_field(&mut out.blob, &own, names.tokens())?;
    put_cases(&mut out.writer, names, &out.blob, name, flags, cases)
}

// The field that holds the value.
fn put_value_field(writer: &mut Writer, flags: bool) -> Result<(), Memory>
    ensures { OnOk result (seen writer.new ≡ with_line nothing (field_line 0x0601 (codes "value__") (Bytes (0x06 ∷ element flags ∷ []))) (seen writer.old)) }
{
    let signature = [6, if flags { 9 } else { 8 }];
    put_field_row(writer, 0x0601, "value__", &signature)
}

fn put_flags<N: Referred>(out: &mut Out, names: &N, flags: bool) -> Result<(), Memory>
    ensures { OnOk result (said out.new ≡ with_lines (N.names names.now) (when flags (attribute tables.TypeDef makers.Flags [] ∷ [])) (said out.old)) }
{
    if !flags {
        return Ok(());
    }
    put_on(out, names, Table::TypeDef, Maker::Flags, &[])
}

// What stands behind the row of an enum.
fn put_enum_body<N: Referred>(
    out: &mut Out,
    names: &N,
    name: &FullName,
    version: u32,
    flags: bool,
    cases: &[Case],
) -> Result<(), Memory>
    ensures { OnOk result (said out.new ≡ with_lines (N.names names.now) (body_lines (trees.enum name.now version flags cases.now)) (said out.old)) }
{
    put_flags(out, names, flags)?;
    put_version(out, names, version)?;
    put_value_field(&mut out.writer, flags)?;
    put_own_cases(out, names, name, flags, cases)
}

/// An enum (ECMA-335 II.14.3).
pub fn put_enum<N: Referred>(
    out: &mut Out,
    names: &N,
    name: &FullName,
    version: u32,
    flags: bool,
    cases: &[Case],
) -> Result<(), Memory>
    ensures { OnOk result (said out.new ≡ with_lines (N.names names.now) (lines_of (trees.enum name.now version flags cases.now)) (said out.old)) }
{
    put_type(out, names, 0x4101, name, "System.Enum")?;
    put_enum_body(out, names, name, version, flags, cases)
}
