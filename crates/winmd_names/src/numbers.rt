//! The number of each type: the TypeDefOrRef of its row (ECMA-335 II.24.2.6).

ghost use Rattle.std.specs.Prelude.{◌≡◌, ◌&&◌, not, ℕ, List, OnOk, IfOk, bytes_eq, if◌then◌else◌, map, length, string_bytes, suc};
ghost use Rattle.md_schema.specs.declared.table.Table.TheVariants as tables;
ghost use Rattle.sig_blobs.specs.Numbers.{number_in};
ghost use Rattle.winmd_lines.specs.Names as names;
ghost use Rattle.winmd_names.specs.Numbers.{def_number, ref_number, row_code};

use md_schema::{CodedIndex, Table, encode};
use ranked::Memory;
use sig_blobs::Tokens;
use std::alloc::{AllocError, Global};
use winmd_uses::is_outside;
use wr_base::FullName;

/// The most rows that a table has.
pub(crate) const MOST_ROWS: usize = 0x00FF_FFFF;

// The number of a row; past the rows that a table has, want of memory.
fn code(table: Table, row: usize) -> Result<u32, Memory>
    ensures { IfOk result (λ n. n ≡ row_code table row) }
{
    if row > MOST_ROWS {
        return Err(AllocError);
    }
    match encode(CodedIndex::TypeDefOrRef, table, row as u32) {
        Some(number) => Ok(number),
        None => Err(AllocError),
    }
}

fn add_reference(tokens: &mut Tokens, alloc: Global, name: &str, row: usize) -> Result<(), Memory>
    ensures { OnOk result ((full : List ℕ) → number_in tokens.new full ≡ (if bytes_eq full name.now then row_code tables.TypeRef row else number_in tokens.old full)) }
{
    let number = code(Table::TypeRef, row)?;
    tokens.add(String::from_str(alloc, name)?, number)
}

fn add_references(tokens: &mut Tokens, alloc: Global, refs: &[String]) -> Result<(), Memory>
    ensures { OnOk result ((full : List ℕ) → number_in tokens.new full ≡ ref_number 1 (map string_bytes refs.now) full (number_in tokens.old full)) }
{
    let mut left = refs.len();
    while left > 0 {
        left -= 1;
        add_reference(tokens, alloc, refs[left].as_str(), left + 1)?;
    }
    Ok(())
}

fn add_declared(
    tokens: &mut Tokens,
    alloc: Global,
    name: &FullName,
    row: usize,
) -> Result<(), Memory>
    ensures { OnOk result ((full : List ℕ) → number_in tokens.new full ≡ (if bytes_eq full name.now && not (names.is_outside name.now) then row_code tables.TypeDef row else number_in tokens.old full)) }
{
    if is_outside(name) {
        return Ok(());
    }
    let number = code(Table::TypeDef, row)?;
    tokens.add(String::from_str(alloc, name.as_str())?, number)
}

fn add_types(tokens: &mut Tokens, alloc: Global, types: &[FullName]) -> Result<(), Memory>
    ensures { OnOk result ((full : List ℕ) → number_in tokens.new full ≡ def_number 2 types.now full (number_in tokens.old full)) }
{
    let mut left = types.len();
    while left > 0 {
        left -= 1;
        add_declared(tokens, alloc, &types[left], left + 2)?;
    }
    Ok(())
}

/// The number of each name, where the declared types stand from row 2 of TypeDef on.
pub(crate) fn numbers(alloc: Global, types: &[FullName], refs: &[String]) -> Result<Tokens, Memory>
    ensures { IfOk result (λ tokens. (full : List ℕ) → number_in tokens full ≡ def_number 2 types.now full (ref_number 1 (map string_bytes refs.now) full (row_code tables.TypeRef (suc (length refs.now))))) }
{
    let mut tokens = Tokens::new(alloc, code(Table::TypeRef, refs.len() + 1)?);
    add_references(&mut tokens, alloc, refs)?;
    add_types(&mut tokens, alloc, types)?;
    Ok(tokens)
}
