//! Names, as rows hold them.

ghost use Rattle.std.specs.Prelude.{◌≡◌, ◌&&◌, ◌==◌, length, nat_le};
ghost use Rattle.std.specs.List.{list_all};
ghost use Rattle.std.proofs.Common.{rules};
ghost use Rattle.wr_base.specs.Paths.{is_identifier, is_path, parts_of};
ghost use Rattle.winmd_lines.specs.Cells as cells_as;
ghost use Rattle.winmd_cells.specs.Given.{Gives};
ghost use Rattle.winmd_cells.specs.Names.{full_seen};
ghost use Rattle.winmd_cells.specs.Seen.{row_seen, seen, tables_in, value_seen};

use crate::cells::{Value, refused};
use crate::image::Image;
use md_schema::{ImageFault, ImageKind, Table};
use ranked::Stop;
use wr_base::{tests_identifier, tests_short_name};

/// The full name of a type, by its two parts (ECMA-335 II.22.37, II.22.38).
#[derive(Clone, Copy)]
pub struct TypeName<'a> {
    pub space: &'a [u8],
    pub name: &'a [u8],
}

fn has_two_parts(path: &[u8]) -> bool
    ensures { result ≡ nat_le 2 (length (parts_of path.now)) }
{
    path.split(|b| *b == b'.').count() >= 2
}

fn has_identifiers(path: &[u8]) -> bool
    ensures { result ≡ list_all is_identifier (parts_of path.now) }
{
    path.split(|b| *b == b'.')
        .all(|part| tests_identifier(part))
}

fn tests_path(path: &[u8]) -> bool
    ensures { result ≡ is_path path.now }
{
    has_two_parts(path) && has_identifiers(path)
}

/// An identifier of at most so many bytes. Refused at an offset: BadShape where it is none, PastLimit where it is longer.
pub fn identifier_of(most: usize, offset: u64, name: &[u8]) -> Result<&[u8], Stop<ImageFault>>
    ensures { Gives (λ x. x.now) result (cells_as.identifier_of most offset name.now) }
{
    if !tests_identifier(name) {
        return Err(refused(ImageKind::BadShape, offset));
    }
    if name.len() <= most {
        Ok(name)
    } else {
        Err(refused(ImageKind::PastLimit, offset))
    }
}

/// A full name. Refused at an offset: BadShape where it is no path, PastLimit where it is too long.
pub fn path_of(offset: u64, path: &[u8]) -> Result<&[u8], Stop<ImageFault>>
    ensures { Gives (λ x. x.now) result (cells_as.path_of offset path.now) }
{
    if !tests_path(path) {
        return Err(refused(ImageKind::BadShape, offset));
    }
    if tests_short_name(path) {
        Ok(path)
    } else {
        Err(refused(ImageKind::PastLimit, offset))
    }
}

impl<'a> Image<'a> {
    fn has_row(&self, table: Table, n: u32) -> bool
        ensures { result ≡ (nat_le 1 n && nat_le n (length ((tables_in self.now).rows table))) }
    {
        1 <= n && n <= self.count(table)
    }

    /// The row of a number, for a cell at an offset. Refused with RowRange where there is none.
    pub fn row_at(&self, table: Table, n: u32, offset: u64) -> Result<u32, Stop<ImageFault>>
        ensures { Gives (row_seen self.now table) result (cells_as.row_at (tables_in self.now) table n offset) }
    {
        if self.has_row(table, n) {
            Ok(n)
        } else {
            Err(refused(ImageKind::RowRange, offset))
        }
    }

    /// The identifier in a cell, of at most 255 bytes.
    pub fn name_in(&self, table: Table, n: u32, column: usize) -> Result<&'a [u8], Stop<ImageFault>>
        ensures { Gives (λ x. x.now) result (cells_as.name_in (tables_in self.now) table (seen self.now table n) column) }
    {
        let name = self.bytes(table, n, column)?;
        identifier_of(255, self.offset(table, n, column), name)
    }

    /// The full name in a row of TypeDef or TypeRef, of any shape.
    pub fn full_name_in(&self, table: Table, n: u32) -> Result<TypeName<'a>, Stop<ImageFault>>
        ensures { Gives full_seen result (cells_as.full_name_in (row_seen self.now table n)) }
    {
        let name = self.bytes(table, n, 1)?;
        let space = self.bytes(table, n, 2)?;
        Ok(TypeName { space, name })
    }

    fn full_name_of(&self, table: Table, n: u32) -> Result<TypeName<'a>, Stop<ImageFault>>
        ensures { Gives full_seen result (cells_as.full_name_of table (row_seen self.now table n)) }
    {
        match table {
            Table::TypeRef | Table::TypeDef => self.full_name_in(table, n),
            _ => Ok(TypeName {
                space: &[],
                name: &[],
            }),
        }
    }

    /// The full name of the type that a cell at an offset leads to, whatever its scope.
    pub fn named_at(&self, offset: u64, value: Value<'_>) -> Result<TypeName<'a>, Stop<ImageFault>>
        ensures { Gives full_seen result (cells_as.named_at (tables_in self.now) offset (value_seen value.entry)) }
    {
        match value {
            Value::To(table, n) => self.full_name_of(table, self.row_at(table, n, offset)?),
            _ => Ok(TypeName {
                space: &[],
                name: &[],
            }),
        }
    }
}
