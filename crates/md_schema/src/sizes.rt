//! How wide a column is.

ghost use Rattle.std.specs.Prelude.{◌≡◌, ◌≤◌};
ghost use Rattle.md_schema.specs.Widths.{count_of, has_rows, is_long_code, width_of};

use crate::column::{CodedIndex, Column};
use crate::indices::{bits, choices};
use crate::table::Table;

/// What the width of columns hangs on (ECMA-335 II.24.2.6): which heaps have indices of four bytes, and how many rows each table has, by its number.
#[derive(Clone, Copy, Debug)]
pub struct Sizes {
    /// Indices into `#Strings` have four bytes.
    pub long_texts: bool,
    /// Indices into `#GUID` have four bytes.
    pub long_guids: bool,
    /// Indices into `#Blob` have four bytes.
    pub long_blobs: bool,
    /// How many rows each table has, by the number of the table.
    pub rows: [u32; 45],
}

impl Sizes {
    /// How many rows a table has.
    pub fn count(&self, table: Table) -> u32
        ensures { result ≡ count_of self.now table }
    {
        self.rows[table.number() as usize]
    }
}

fn is_long(sizes: &Sizes, coded: CodedIndex) -> bool
    ensures { result ≡ is_long_code sizes.now coded }
{
    let least = 1u32 << (16 - bits(coded));
    choices(coded)
        .iter()
        .any(|choice| reaches(sizes, *choice, least))
}

fn reaches(sizes: &Sizes, choice: Option<Table>, least: u32) -> bool
    ensures { result ≡ has_rows sizes.now least choice }
{
    match choice {
        Some(table) => sizes.count(table) >= least,
        None => false,
    }
}

/// How many bytes a column has: 1, 2 or 4 (ECMA-335 II.24.2.6).
pub fn width(sizes: &Sizes, column: Column) -> u32
    ensures value { result ≡ width_of sizes.now column }
    ensures small { result ≤ 4 }
{
    match column {
        Column::One => 1,
        Column::Two => 2,
        Column::Four => 4,
        Column::Texts => if sizes.long_texts { 4 } else { 2 },
        Column::Guids => if sizes.long_guids { 4 } else { 2 },
        Column::Blobs => if sizes.long_blobs { 4 } else { 2 },
        Column::Index(table) => if sizes.count(table) > 65535 { 4 } else { 2 },
        Column::Coded(coded) => if is_long(sizes, coded) { 4 } else { 2 },
    }
}
