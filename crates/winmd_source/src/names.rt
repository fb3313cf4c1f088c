//! Names of their own.

ghost use Rattle.std.specs.Prelude.{◌≡◌, IsTrue, IfOk};
ghost use Rattle.std.specs.Str.{IsUtf8};
ghost use Rattle.wr_base.specs.Paths.{is_path};
ghost use Rattle.winmd_cells.specs.Given.{Gives};
ghost use Rattle.winmd_cells.specs.Seen.{seen, tables_in};
ghost use Rattle.winmd_lines.specs.Cells as cells_as;

use crate::source::Source;
use md_schema::{ImageFault, Table};
use ranked::{Memory, Name, Stop};
use std::alloc::Global;
use winmd_cells::{identifier_of, path_of};
use wr_base::FullName;

/// An identifier of at most so many bytes. Refused at an offset: BadShape where it is none, PastLimit where it is longer.
pub fn name_of(
    alloc: Global,
    most: usize,
    offset: u64,
    bytes: &[u8],
) -> Result<Name, Stop<ImageFault>>
    ensures { Gives (λ x. x) result (cells_as.identifier_of most offset bytes.now) }
{
    let name = identifier_of(most, offset, bytes)?;
    Ok(Name::from_ascii(alloc, name)?)
}

fn owned_path(alloc: Global, path: &[u8]) -> Result<FullName, Memory>
    requires path { IsTrue (is_path path.now) }
    requires text { IsUtf8 path.now }
    ensures { IfOk result (λ x. x ≡ path.now) }
{
    match std::str::from_utf8(path) {
        Ok(text) => match FullName::new(String::from_str(alloc, text)?) {
            Some(name) => Ok(name),
            None => unreachable!(),
        },
        Err(_) => unreachable!(),
    }
}

/// A full name. Refused at an offset: BadShape where it is no path, PastLimit where it is too long.
pub fn full_name(alloc: Global, offset: u64, bytes: &[u8]) -> Result<FullName, Stop<ImageFault>>
    ensures { Gives (λ x. x) result (cells_as.path_of offset bytes.now) }
{
    let path = path_of(offset, bytes)?;
    Ok(owned_path(alloc, path)?)
}

impl<'a> Source<'a> {
    /// The identifier in a cell, of at most 255 bytes.
    pub fn name_in(
        &self,
        alloc: Global,
        table: Table,
        n: u32,
        column: usize,
    ) -> Result<Name, Stop<ImageFault>>
        ensures { Gives (λ x. x) result (cells_as.name_in (tables_in self.now.image) table (seen self.now.image table n) column) }
    {
        let bytes = self.image.bytes(table, n, column)?;
        name_of(alloc, 255, self.image.offset(table, n, column), bytes)
    }
}
