//! Lists of rows (ECMA-335 II.22): each as the numbers of its rows.

ghost use Rattle.std.specs.Prelude.{◌≡◌, ◌<◌, ◌≤◌, ◌-◌, ◌^◌, take, drop, map, length};
ghost use Rattle.md_schema.specs.Tables.{upto};
ghost use Rattle.winmd_lines.specs.Cells as cells_as;
ghost use Rattle.winmd_cells.specs.Given.{Gives};
ghost use Rattle.winmd_cells.specs.Seen.{seen, tables_in};

use crate::image::Image;
use md_schema::{ImageFault, Table};
use ranked::Stop;

/// At most so many from a place on.
fn part(numbers: &[u32], from: usize, size: usize) -> &[u32]
    ensures { result.now ≡ take size (drop from numbers.now) }
{
    if from >= numbers.len() {
        return &[];
    }
    let rest = &numbers[from..];
    if size >= rest.len() {
        rest
    } else {
        &rest[..size]
    }
}

impl<'a> Image<'a> {
    /// The numbers of all rows of a table.
    pub fn all_rows(&self, table: Table) -> &'a [u32]
        ensures { result.now ≡ upto 1 (length ((tables_in self.now).rows table)) }
    {
        &self.places.numbers.as_slice()[..self.view.count(table)]
    }

    /// How many rows a table has.
    pub fn count(&self, table: Table) -> u32
        ensures { result ≡ length ((tables_in self.now).rows table) }
    {
        self.view.count(table) as u32
    }

    /// The rows between two numbers.
    fn rows_between(&self, member: Table, first: u64, end: u64) -> &'a [u32]
        ensures { map (seen self.now member) result.now ≡ take (end - first) (drop (first - 1) (cells_as.all_rows (tables_in self.now) member)) }
    {
        let from = first.saturating_sub(1) as usize;
        let size = end.saturating_sub(first) as usize;
        part(self.all_rows(member), from, size)
    }

    /// Where the list of a row begins: after the last row, behind the last member.
    fn list_from(
        &self,
        owner: Table,
        column: usize,
        member: Table,
        n: u64,
    ) -> Result<u64, Stop<ImageFault>>
        ensures { Gives (λ x. x) result (cells_as.list_from (tables_in self.now) owner column member n) }
    {
        if (self.count(owner) as u64) < n {
            Ok(self.count(member) as u64 + 1)
        } else {
            Ok(self.target(owner, n as u32, column)? as u64)
        }
    }

    /// The rows of the list of a row, which ends where the next row's begins (II.22.37, II.22.26, II.22.12, II.22.35).
    pub fn list_of(
        &self,
        owner: Table,
        column: usize,
        member: Table,
        n: u32,
    ) -> Result<&'a [u32], Stop<ImageFault>>
        ensures { Gives (λ x. map (seen self.now member) x.now) result (cells_as.list_of (tables_in self.now) owner column member n) }
    {
        let first = self.list_from(owner, column, member, n as u64)?;
        let end = self.list_from(owner, column, member, n as u64 + 1)?;
        Ok(self.rows_between(member, first, end))
    }
}
