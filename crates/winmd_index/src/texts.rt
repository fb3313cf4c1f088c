//! Full names as texts.

ghost use Rattle.std.specs.Prelude.{◌≡◌, ◌++◌, ◌∷◌, IfOk, Some, slice_get, string_bytes};
ghost use Rattle.std.specs.Str.{IsUtf8};
ghost use Rattle.md_schema.specs.Schema.{columns_of};
ghost use Rattle.winmd_cells.specs.Given.{Gives};
ghost use Rattle.winmd_cells.specs.Seen.{row_seen, tables_in};
ghost use Rattle.winmd_lines.specs.Cells as cells_as;

use md_schema::{Column, ImageFault, Table};
use ranked::{Memory, Name, Stop};
use std::alloc::Global;
use winmd_cells::Image;

fn as_text(bytes: &[u8]) -> &str
    requires { IsUtf8 bytes.now }
    ensures { result.now ≡ bytes.now }
{
    match std::str::from_utf8(bytes) {
        Ok(text) => text,
        Err(_) => unreachable!(),
    }
}

/// The text in a cell of a column of texts.
fn text_in<'a>(
    image: &Image<'a>,
    table: Table,
    n: u32,
    column: usize,
) -> Result<&'a str, Stop<ImageFault>>
    requires { slice_get (columns_of table) column ≡ Some Column.Texts }
    ensures { Gives (λ x. x.now) result (cells_as.bytes_in (row_seen image.now table n) column) }
{
    let bytes = image.bytes(table, n, column)?;
    Ok(as_text(bytes))
}

/// A namespace and a name with a dot between them, or a name alone.
fn joined(alloc: Global, space: &str, name: &str) -> Result<Name, Memory>
    ensures { IfOk result (λ x. x ≡ cells_as.joined space.now name.now) }
{
    if space.is_empty() {
        return Ok(Name::new(String::from_str(alloc, name)?));
    }
    let mut text = String::from_str(alloc, space)?;
    text.push('.')?;
    text.push_str(name)?;
    Ok(Name::new(text))
}

/// The full name in a row of TypeDef or TypeRef.
pub(crate) fn full_text(
    alloc: Global,
    image: &Image<'_>,
    table: Table,
    n: u32,
) -> Result<Name, Stop<ImageFault>>
    requires name { slice_get (columns_of table) 1 ≡ Some Column.Texts }
    requires space { slice_get (columns_of table) 2 ≡ Some Column.Texts }
    ensures { Gives (λ x. x) result (cells_as.full_name_in (row_seen image.now table n)) }
{
    let name = text_in(image, table, n, 1)?;
    let space = text_in(image, table, n, 2)?;
    Ok(joined(alloc, space, name)?)
}
