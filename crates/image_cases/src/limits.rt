//! `cases NAME;CASES;CONSTANTS` prints the sizes of the types that are read from the image of `Shop.Size` with so many cases, each of the name at that
//! index of `#Strings`, and with so many constants.

use crate::images::push_found;
use crate::parts::Parts;
use case_text::{decimal, halves};
use md_schema::Table;
use std::alloc::{AllocError, Global};
use winmd_read::types_of;
use wr_base::{Declaration, Types};

/// System.Enum.
const ENUM_REF: &[u8] = &[6, 0, 0x0D, 0, 0x12, 0];

/// `value__` of I4.
const VALUE: &[u8] = &[1, 6, 0x59, 0, 1, 0];

/// `Shop.Size`, which extends row 1 of TypeRef.
const SIZE_ROW: &[u8] = &[1, 0x41, 0, 0, 0x4F, 0, 0x54, 0, 5, 0, 1, 0, 1, 0];

fn push_fields(parts: &mut Parts, name: u32, cases: u32) -> Result<(), AllocError> {
    let [low, high, _, _] = name.to_le_bytes();
    parts.begin(Table::Field, (cases as usize).saturating_add(1))?;
    parts.row(VALUE)?;
    for _ in 0..cases {
        parts.row(&[0x56, 0x80, low, high, 4, 0])?;
    }
    Ok(())
}

// The constants 0 of the rows of Field from 2 on, which has tag 0 in two bits.
fn push_constants(parts: &mut Parts, constants: u32) -> Result<(), AllocError> {
    parts.begin(Table::Constant, constants as usize)?;
    for i in 0..constants {
        let [low, high, _, _] = i.wrapping_add(2).wrapping_mul(4).to_le_bytes();
        parts.row(&[8, 0, low, high, 0x0D, 0])?;
    }
    Ok(())
}

// One row of a table.
fn push_one(parts: &mut Parts, table: Table, row: &[u8]) -> Result<(), AllocError> {
    parts.begin(table, 1)?;
    parts.row(row)
}

// 600 letters and a zero.
fn push_letters(texts: &mut Vec<u8>) -> Result<(), AllocError> {
    for _ in 0..600u32 {
        texts.push(b'a')?;
    }
    texts.push(0)?;
    Ok(())
}

// The letters stand behind the other texts.
fn fill(parts: &mut Parts, case: &str) -> Result<(), AllocError> {
    let (name, rest) = halves(case);
    let (cases, constants) = halves(rest);
    push_letters(&mut parts.texts)?;
    push_one(parts, Table::TypeRef, ENUM_REF)?;
    push_one(parts, Table::TypeDef, SIZE_ROW)?;
    push_fields(parts, decimal(name), decimal(cases))?;
    match decimal(constants) {
        0 => Ok(()),
        count => push_constants(parts, count),
    }
}

fn image(alloc: Global, base: &[u8], case: &str) -> Result<Vec<u8>, AllocError> {
    let mut parts = Parts::new(alloc);
    fill(&mut parts, case)?;
    parts.image(alloc, base)
}

fn push_lengths(out: &mut String, declaration: &Declaration) -> Result<(), AllocError> {
    let Declaration::Enum { name, cases, .. } = declaration else {
        return out.push_str("another|");
    };
    let alloc = *out.allocator();
    let name = name.as_str().len();
    let count = cases.as_slice().len();
    let first = cases
        .as_slice()
        .first()
        .map_or(0, |case| case.name.as_str().len());
    out.push_str(format!(in alloc; "name {name} cases {count} first {first}|")?.as_str())
}

fn push_all_lengths(out: &mut String, types: &Types) -> Result<(), AllocError> {
    for i in 0..types.len() {
        push_lengths(out, types.at(i))?;
    }
    Ok(())
}

fn push_read(out: &mut String, image: &[u8]) -> Result<(), AllocError> {
    match types_of(*out.allocator(), image) {
        Ok(types) => push_all_lengths(out, &types),
        Err(_) => push_found(out, image),
    }
}

/// How long the name of each type is, how many cases it has, and how long the name of the first is; or the fault.
pub fn cases(out: &mut String, base: &[u8], case: &str) -> Result<(), AllocError> {
    let image = image(*out.allocator(), base, case)?;
    push_read(out, &image)
}
