//! Rows that cells lead to.

use md_schema::Table;

/// A row of a table, by its number; 0 stands for none.
#[derive(Clone, Copy)]
pub struct Target {
    pub table: Table,
    pub row: u32,
}
