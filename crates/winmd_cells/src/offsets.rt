//! Where a cell stands.

ghost use Rattle.std.specs.Prelude.{◌≡◌, ◌<◌, ◌≤◌, ◌^◌, ◌-◌, ℕ, get_or, length, map, take};
ghost use Rattle.md_bytes.specs.Bytes.{total};
ghost use Rattle.md_schema.specs.Tables as width_as;
ghost use Rattle.md_schema.specs.Widths.{width_of};
ghost use Rattle.winmd_lines.specs.Cells as cells_as;
ghost use Rattle.winmd_cells.specs.Seen.{tables_in};

use crate::image::Image;
use md_schema::{Column, Sizes, Table, width};
use md_tables::place;

fn entry(list: &[u64], i: usize) -> u64
    ensures { result ≡ get_or list.now i 0 }
{
    if i < list.len() { list[i] } else { 0 }
}

/// How many bytes these columns have.
pub(crate) fn total_width(sizes: &Sizes, columns: &[Column]) -> u64
    requires { length columns.now ≤ 9 }
    ensures value { result ≡ total (map (width_of sizes.now) columns.now) }
    ensures small { result ≤ 36 }
{
    let mut sum = 0;
    for column in columns {
        sum += width(sizes, *column) as u64;
    }
    sum
}

fn first(widths: &[u32], count: usize) -> &[u32]
    ensures widths { result.now ≡ take count widths.now }
    ensures few { length result.now ≤ length widths.now }
{
    if count < widths.len() {
        &widths[..count]
    } else {
        widths
    }
}

/// The sum of up to nine widths.
fn sum(widths: &[u32]) -> u64
    requires few { length widths.now ≤ 9 }
    requires narrow { (i : ℕ) → get_or widths.now i 0 ≤ 4 }
    ensures value { result ≡ total widths.now }
    ensures small { result ≤ 36 }
{
    let mut sum = 0;
    for width in widths {
        sum += *width as u64;
    }
    sum
}

/// The sum of the first of up to nine widths.
fn sum_before(widths: &[u32], count: usize) -> u64
    requires few { length widths.now ≤ 9 }
    requires narrow { (i : ℕ) → get_or widths.now i 0 ≤ 4 }
    ensures value { result ≡ total (take count widths.now) }
    ensures small { result ≤ 36 }
{
    sum(first(widths, count))
}

impl<'a> Image<'a> {
    /// How many bytes the cells of a table's columns have.
    fn widths(&self, table: Table) -> &'a [u32]
        ensures { result.now ≡ width_as.widths_of (width_as.sizes_of self.now.stream.now) table }
    {
        match self.places.widths.get(place(table)) {
            Some(widths) => widths.as_slice(),
            None => &[],
        }
    }

    /// Where a cell stands in the image. Rows count from 1, columns from 0.
    pub fn offset(&self, table: Table, row: u32, column: usize) -> u64
        ensures { result ≡ cells_as.at (tables_in self.now) table row column }
    {
        let widths = self.widths(table);
        let start = entry(self.places.starts.as_slice(), place(table));
        let above = (row as u64).saturating_sub(1);
        self.at + (start + above * sum(widths) + sum_before(widths, column))
    }
}
