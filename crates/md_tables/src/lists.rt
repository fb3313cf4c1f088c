//! The columns that are lists of rows in another table.

ghost use Rattle.std.specs.Prelude.{◌≡◌, ◌<◌, ◌^◌, length};
ghost use Rattle.md_tables.specs.Lists.{cells_in};
ghost use Rattle.md_tables.specs.Faults as faults;

use crate::cells::Cells;
use md_schema::Table;

/// A list of rows: the column of the owner's rows that says where each one's list begins in another table (ECMA-335 II.22).
#[derive(Clone, Copy, Debug)]
pub struct RowList {
    pub owner: Table,
    pub column: usize,
    pub member: Table,
}

/// Fields and methods of a type, parameters of a method, events and properties of a type.
pub const ROW_LISTS: [RowList; 5] = [
    RowList {
        owner: Table::TypeDef,
        column: 4,
        member: Table::Field,
    },
    RowList {
        owner: Table::TypeDef,
        column: 5,
        member: Table::MethodDef,
    },
    RowList {
        owner: Table::MethodDef,
        column: 5,
        member: Table::Param,
    },
    RowList {
        owner: Table::EventMap,
        column: 1,
        member: Table::Event,
    },
    RowList {
        owner: Table::PropertyMap,
        column: 1,
        member: Table::Property,
    },
];

fn list_begin(rows: &[Cells], column: usize, row: usize) -> u32
    ensures { result ≡ faults.list_begin (cells_in rows.now) column row }
{
    if row < rows.len() && column < rows[row].len() {
        rows[row][column]
    } else {
        0
    }
}

fn list_end(rows: &[Cells], column: usize, members: u32, row: usize) -> u64
    requires { row < length rows.now }
    ensures { result ≡ faults.list_end (cells_in rows.now) column members row }
{
    if row + 1 < rows.len() {
        list_begin(rows, column, row + 1) as u64
    } else {
        members as u64 + 1
    }
}

fn is_disordered(rows: &[Cells], column: usize, members: u32, row: usize) -> bool
    requires { row < length rows.now }
    ensures { result ≡ faults.is_disordered (cells_in rows.now) column members row }
{
    let end = list_end(rows, column, members, row);
    end < list_begin(rows, column, row) as u64 || members as u64 + 1 < end
}

/// The first row whose list runs backwards, or past the end of a table of so many members.
pub fn disordered_row(rows: &[Cells], count: u32, column: usize, members: u32) -> Option<u32>
    requires { length rows.now ≡ count }
    ensures { result ≡ faults.disordered_row (cells_in rows.now) column members }
{
    for row in 0..count {
        if is_disordered(rows, column, members, row as usize) {
            return Some(row);
        }
    }
    None
}
