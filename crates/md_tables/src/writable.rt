//! Which sets can be written.

ghost use Rattle.std.specs.Prelude.{◌≡◌, ◌≤◌, ◌<◌, ◌^◌, ◌↔◌, ℕ, IsTrue, None, get_or, length};
ghost use Rattle.std.specs.List.{AllByRecursion};
ghost use Rattle.md_schema.specs.declared.table.Table.{Table};
ghost use Rattle.md_schema.specs.Tables.{widths_of};
ghost use Rattle.md_schema.specs.Written.{RowFits};
ghost use Rattle.md_tables.specs.Faults.{disorder, disordered_in};
ghost use Rattle.md_tables.specs.Lists.{cells_in};
ghost use Rattle.md_tables.specs.Rows.{rows_in, sizes_in};
ghost use Rattle.md_tables.specs.Writable.{Writable};

use crate::cells::{Cells, widths};
use crate::lists::{ROW_LISTS, RowList, disordered_row};
use crate::set::TableSet;
use crate::write::sizes;
use md_schema::{Sizes, TABLES, Table, columns};

/// Whether a set can be written, as `write_tables` asks for.
pub fn is_writable(set: &TableSet) -> bool
    ensures { IsTrue result ↔ Writable set.now }
{
    if !has_few_rows(set, &TABLES) {
        return false;
    }
    let sizes = sizes(set);
    all_fit(set, &sizes, &TABLES) && is_ordered(set, &ROW_LISTS)
}

/// Whether each of these tables has fewer than 2^24 rows.
fn has_few_rows(set: &TableSet, tables: &[Table]) -> bool
    ensures { IsTrue result ↔ AllByRecursion (λ table. length (rows_in set.now table) < 2 ^ 24) tables.now }
{
    for table in tables {
        if set.count(*table) >= 0x100_0000 {
            return false;
        }
    }
    true
}

/// Whether each row of these tables fits its columns.
fn all_fit(set: &TableSet, sizes: &Sizes, tables: &[Table]) -> bool
    ensures { IsTrue result ↔ AllByRecursion (λ table. AllByRecursion (RowFits (widths_of sizes.now table)) (rows_in set.now table)) tables.now }
{
    for table in tables {
        if !table_fits(set, sizes, *table) {
            return false;
        }
    }
    true
}

fn table_fits(set: &TableSet, sizes: &Sizes, table: Table) -> bool
    ensures { IsTrue result ↔ AllByRecursion (RowFits (widths_of sizes.now table)) (rows_in set.now table) }
{
    let widths = widths(sizes, columns(table));
    rows_fit(&widths, set.rows(table))
}

fn rows_fit(widths: &[u32], rows: &[Cells]) -> bool
    requires { (i : ℕ) → get_or widths.now i 0 ≤ 4 }
    ensures { IsTrue result ↔ AllByRecursion (RowFits widths.now) (cells_in rows.now) }
{
    for row in rows {
        if !row_fits(widths, row) {
            return false;
        }
    }
    true
}

/// Whether a row has a number for each column, which fits it.
fn row_fits(widths: &[u32], cells: &[u32]) -> bool
    requires { (i : ℕ) → get_or widths.now i 0 ≤ 4 }
    ensures { IsTrue result ↔ RowFits widths.now cells.now }
{
    if cells.len() != widths.len() {
        return false;
    }
    for i in 0..widths.len() {
        if !cell_fits(cells[i], widths[i]) {
            return false;
        }
    }
    true
}

fn cell_fits(cell: u32, width: u32) -> bool
    requires { width ≤ 4 }
    ensures { IsTrue result ↔ cell < 256 ^ width }
{
    match width {
        0 => cell == 0,
        1 => cell < 0x100,
        2 => cell < 0x1_0000,
        3 => cell < 0x100_0000,
        _ => true,
    }
}

/// Whether no list of rows runs backwards or past the end of its table.
fn is_ordered(set: &TableSet, lists: &[RowList]) -> bool
    requires { (table : Table) → length (rows_in set.now table) < 2 ^ 24 }
    ensures { IsTrue result ↔ disorder (rows_in set.now) lists.now ≡ None }
{
    for list in lists {
        if is_disordered_in(set, *list) {
            return false;
        }
    }
    true
}

fn is_disordered_in(set: &TableSet, list: RowList) -> bool
    requires { (table : Table) → length (rows_in set.now table) < 2 ^ 24 }
    ensures { IsTrue result ↔ ¬ (disordered_in (rows_in set.now) list ≡ None) }
{
    let rows = set.rows(list.owner);
    let members = set.count(list.member) as u32;
    disordered_row(rows, rows.len() as u32, list.column, members).is_some()
}
