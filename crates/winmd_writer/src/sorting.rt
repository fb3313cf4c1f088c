//! The two tables that are sorted at the end.

ghost use Rattle.std.specs.Prelude.{◌≡◌, get_or, length, OnOk};
ghost use Rattle.md_tables.specs.Lists.{cells_in};
ghost use Rattle.md_tables.specs.Rows.{rows_in};
ghost use Rattle.winmd_lines.specs.Orders.{sort_by};
ghost use Rattle.winmd_writer.specs.Sorted.{number_in, all_sorted};

use md_tables::{Cells, TableSet};
use std::alloc::AllocError;

/// Where the rows of CustomAttribute stand among the tables, and the column of their parents.
const ATTRIBUTES: usize = 9;

const PARENT: usize = 0;

/// Where the rows of MethodSemantics stand among the tables, and the column of their associations.
const SEMANTICS: usize = 19;

const ASSOCIATION: usize = 2;

fn number_at(row: &Cells, column: usize) -> u32
    ensures { result ≡ number_in column row.now.items }
{
    match row.get(column) {
        Some(n) => *n,
        None => 0,
    }
}

/// Puts rows in the order of the numbers of a column. Rows of one number stay as they stand.
fn sort_rows(rows: &mut Vec<Cells>, column: usize) -> Result<(), AllocError>
    ensures { OnOk result (cells_in rows.new.items ≡ sort_by (number_in column) (cells_in rows.old.items)) }
{
    rows.sort_by_key(|row| number_at(row, column))?;
    Ok(())
}

/// Sorts CustomAttribute by parents, and MethodSemantics by associations (II.22.10, II.22.28).
pub fn sort_tables(set: &mut TableSet) -> Result<(), AllocError>
    ensures { OnOk result (rows_in set.new ≡ all_sorted (rows_in set.old)) }
{
    sort_rows(&mut set.tables[ATTRIBUTES], PARENT)?;
    sort_rows(&mut set.tables[SEMANTICS], ASSOCIATION)
}
