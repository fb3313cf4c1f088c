//! The names that tokens stand for.

ghost use Rattle.std.specs.Prelude.{◌≡◌, ◌++◌, ◌∷◌, [], IfOk, OnOk, Some, map, slice_get, length};
ghost use Rattle.md_schema.specs.declared.table.Table.TheVariants as tables;
ghost use Rattle.md_schema.specs.Schema.{columns_of};
ghost use Rattle.md_schema.specs.Tables.{upto};
ghost use Rattle.sig_blobs.specs.Tokens.{meaning_in};
ghost use Rattle.winmd_cells.specs.Seen.{tables_in};
ghost use Rattle.winmd_index.specs.Names.{name_seen};
ghost use Rattle.winmd_sets.specs.Blobs.{meanings};

use crate::texts::full_text;
use md_schema::{Column, Table};
use ranked::{Memory, Stop};
use sig_blobs::{RowName, TokenNames};
use std::alloc::{AllocError, Global};
use winmd_cells::Image;

/// The full name in a row, or why it can't be read.
fn row_name(alloc: Global, image: &Image<'_>, table: Table, n: u32) -> Result<RowName, Memory>
    requires name { slice_get (columns_of table) 1 ≡ Some Column.Texts }
    requires space { slice_get (columns_of table) 2 ≡ Some Column.Texts }
    ensures { IfOk result (λ x. x ≡ name_seen image.now table n) }
{
    match full_text(alloc, image, table, n) {
        Ok(name) => Ok(Ok(name)),
        Err(Stop::Refused(fault)) => Ok(Err(fault.kind)),
        Err(Stop::Memory) => Err(AllocError),
    }
}

fn put_defs(alloc: Global, image: &Image<'_>, names: &mut TokenNames) -> Result<(), Memory>
    requires { names.old.defs ≡ [] }
    ensures defs { OnOk result (names.new.defs ≡ map (name_seen image.now tables.TypeDef) (upto 1 (length ((tables_in image.now).rows tables.TypeDef)))) }
    ensures refs { OnOk result (names.new.refs ≡ names.old.refs) }
{
    for i in 0..image.count(Table::TypeDef) {
        let name = row_name(alloc, image, Table::TypeDef, i + 1)?;
        names.push_def(name)?;
    }
    Ok(())
}

fn put_refs(alloc: Global, image: &Image<'_>, names: &mut TokenNames) -> Result<(), Memory>
    requires { names.old.refs ≡ [] }
    ensures refs { OnOk result (names.new.refs ≡ map (name_seen image.now tables.TypeRef) (upto 1 (length ((tables_in image.now).rows tables.TypeRef)))) }
    ensures defs { OnOk result (names.new.defs ≡ names.old.defs) }
{
    for i in 0..image.count(Table::TypeRef) {
        let name = row_name(alloc, image, Table::TypeRef, i + 1)?;
        names.push_ref(name)?;
    }
    Ok(())
}

/// What the tokens of signatures stand for (ECMA-335 II.23.2.8). Each row's name is kept as a text of its own.
pub fn names_of(alloc: Global, image: &Image<'_>) -> Result<TokenNames, Memory>
    ensures { IfOk result (λ names. meaning_in names ≡ meanings (tables_in image.now)) }
{
    let mut names = TokenNames::new(alloc);
    put_defs(alloc, image, &mut names)?;
    put_refs(alloc, image, &mut names)?;
    Ok(names)
}
