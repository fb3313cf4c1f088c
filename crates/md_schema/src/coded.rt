//! Coded indices: one number that names a table and a row of it.

ghost use Rattle.std.specs.Prelude.{◌≡◌, ◌+◌, ◌-◌, ◌*◌, ◌^◌, ◌<◌, ◌≤◌, length};
ghost use Rattle.std.specs.Result.{result_ok};
ghost use Rattle.md_schema.specs.Codes.{target_of, code_of};

use crate::choice::{choice_at, tag_of};
use crate::table::Table;

/// The low bits of a coded index name no table.
#[derive(Clone, Copy, Debug, PartialEq, Eq)]
pub struct BadTag;

/// A coded index (ECMA-335 II.24.2.6): the low `bits` bits are the tag of a table, and those above are its row.
#[derive(Clone, Copy, Debug)]
pub struct Coded<const TAGS: usize> {
    /// How many bits the tag has.
    pub bits: u32,
    /// The tables by tag; a tag without a table has `None`.
    pub tables: [Option<Table>; TAGS],
    pub ghost short: { bits < 16 },
    pub ghost fits: { length tables ≤ 2 ^ bits },
}

impl<const TAGS: usize> Coded<TAGS> {
    /// The table and the row that a number names. Refused where its low bits are the tag of no table.
    pub fn decode(&self, raw: u32) -> Result<(Table, u32), BadTag>
        ensures { result_ok result ≡ target_of self.now.bits self.now.tables raw }
    {
        decode_among(self.bits, &self.tables, raw)
    }

    /// The number that names a row of a table. `None` where the coded index can't name this table.
    pub fn encode(&self, table: Table, row: u32) -> Option<u32>
        requires { row < 2 ^ (32 - self.now.bits) }
        ensures { result ≡ code_of self.now.bits self.now.tables table row }
    {
        encode_among(self.bits, &self.tables, table, row)
    }
}

/// The table and the row that a number names, for a tag of so many bits among these tables.
pub fn decode_among(bits: u32, tables: &[Option<Table>], raw: u32) -> Result<(Table, u32), BadTag>
    requires { bits < 16 }
    ensures { result_ok result ≡ target_of bits tables.now raw }
{
    let tags = tag_count(bits);
    match choice_at(tables, raw % tags) {
        Some(table) => Ok((table, raw / tags)),
        None => Err(BadTag),
    }
}

/// The number that names a row of a table, for a tag of so many bits among these tables.
pub fn encode_among(bits: u32, tables: &[Option<Table>], table: Table, row: u32) -> Option<u32>
    requires short { bits < 16 }
    requires fits { length tables.now ≤ 2 ^ bits }
    requires row { row < 2 ^ (32 - bits) }
    ensures { result ≡ code_of bits tables.now table row }
{
    match tag_of(tables, table) {
        Some(tag) => Some(joined(bits, row, tag as u32)),
        None => None,
    }
}

/// How many tags so many bits make.
fn tag_count(bits: u32) -> u32
    requires { bits < 16 }
    ensures { result ≡ 2 ^ bits }
{
    1 << bits
}

/// The number of a row and a tag.
fn joined(bits: u32, row: u32, tag: u32) -> u32
    requires short { bits < 16 }
    requires row { row < 2 ^ (32 - bits) }
    requires tag { tag < 2 ^ bits }
    ensures { result ≡ row * 2 ^ bits + tag }
{
    row * tag_count(bits) + tag
}
