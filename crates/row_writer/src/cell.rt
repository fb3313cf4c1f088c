//! What the cells of a line say.

use md_schema::Table;

/// What a cell of a line says.
#[derive(Clone, Copy)]
pub enum Cell<'a> {
    Number(u32),
    /// A text, by its bytes in UTF-8.
    Words(&'a [u8]),
    Bytes(&'a [u8]),
    Guid(u32),
    /// A row by its number.
    To(Table, u32),
    /// The last row of a table so far.
    Last(Table),
    /// The next row of a table, where a list begins.
    Next(Table),
}
