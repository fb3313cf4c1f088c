//! The rows that a stream of tables holds.

ghost use Rattle.std.specs.Prelude.{◌≡◌, ◌≤◌, ◌<◌, ◌^◌, None, Some, IfErr, IfOk, OnOk, length, option_map, take};
ghost use Rattle.md_schema.specs.declared.table.Table.{Table};
ghost use Rattle.md_schema.specs.Schema.{all_tables, place_of};
ghost use Rattle.md_schema.specs.Tables.{raw, rows_end, rows_from, sizes_of};
ghost use Rattle.md_schema.specs.Widths.{count_of};
ghost use Rattle.md_tables.specs.Faults.{disorder, disordered_in, fault_of, list_place, row_lists};
ghost use Rattle.md_schema.specs.Faults.{fault_at};
ghost use Rattle.md_tables.specs.Rows.{rows_of};
ghost use Rattle.md_tables.specs.Stops.{IfRefused};

use crate::header::{Header, read_header, row_width, size_of_tables};
use crate::lists::{ROW_LISTS, RowList, disordered_row};
use crate::numbers::place;
use crate::rows::read_all;
use crate::view::TableView;
use md_schema::{Column, ImageFault, ImageKind, Sizes, TABLES, Table, columns};
use ranked::Stop;
use std::alloc::{AllocError, Global};

/// Reads a stream of tables (ECMA-335 II.24.2.6). Refused where its header is cut or names no table, its rows end past the stream,
/// or a list of rows runs backwards or past the end of its table.
pub fn read_tables(alloc: Global, bytes: &[u8]) -> Result<TableView, Stop<ImageFault>>
    ensures ok { OnOk result (fault_of bytes.now ≡ None) }
    ensures rows { IfOk result (λ view. (table : Table) → rows_of view table ≡ raw bytes.now table) }
    ensures refused { IfErr result (λ stop. IfRefused stop (λ fault. fault_of bytes.now ≡ Some fault)) }
{
    let header = match read_header(bytes) {
        Ok(header) => header,
        Err(fault) => return Err(Stop::Refused(fault)),
    };
    let view = read_view(alloc, bytes, &header)?;
    match list_fault(&view, &header) {
        Some(fault) => Err(Stop::Refused(fault)),
        None => Ok(view),
    }
}

fn read_view(alloc: Global, bytes: &[u8], header: &Header) -> Result<TableView, AllocError>
    requires sizes { header.now.sizes ≡ sizes_of bytes.now }
    requires from { header.now.from ≡ rows_from bytes.now }
    requires within { rows_end bytes.now ≤ length bytes.now }
    ensures { IfOk result (λ view. (table : Table) → rows_of view table ≡ raw bytes.now table) }
{
    let tables = read_all(alloc, &header.sizes, &TABLES, bytes, header.from)?;
    Ok(TableView { tables })
}

/// The fault of the first list of rows that runs backwards or past the end of its table.
fn list_fault(view: &TableView, header: &Header) -> Option<ImageFault>
    requires counts { (table : Table) → length (rows_of view.now table) ≡ count_of header.now.sizes table }
    requires from { header.now.from < 2 ^ 32 }
    ensures { result ≡ option_map (λ found. fault_at ImageKind.ListOrder (list_place header.now.sizes header.now.from found.0 found.1)) (disorder (rows_of view.now) row_lists) }
{
    match first_disorder(view, &header.sizes, &ROW_LISTS) {
        Some((list, row)) => Some(ImageFault {
            kind: ImageKind::ListOrder,
            offset: list_offset(header, list, row),
        }),
        None => None,
    }
}

/// The first of the lists in which a row's list runs backwards or past the end of its table, and the row.
fn first_disorder(view: &TableView, sizes: &Sizes, lists: &[RowList]) -> Option<(RowList, u32)>
    requires { (table : Table) → length (rows_of view.now table) ≡ count_of sizes.now table }
    ensures { result ≡ disorder (rows_of view.now) lists.now }
{
    for list in lists {
        match first_row(view, sizes, *list) {
            Some(row) => return Some((*list, row)),
            None => {}
        }
    }
    None
}

fn first_row(view: &TableView, sizes: &Sizes, list: RowList) -> Option<u32>
    requires { (table : Table) → length (rows_of view.now table) ≡ count_of sizes.now table }
    ensures { result ≡ disordered_in (rows_of view.now) list }
{
    disordered_row(
        view.rows(list.owner),
        sizes.count(list.owner),
        list.column,
        sizes.count(list.member),
    )
}

/// Where the cell of a list stands.
fn list_offset(header: &Header, list: RowList, row: u32) -> u64
    requires { header.now.from < 2 ^ 32 }
    ensures { result ≡ list_place header.now.sizes header.now.from list row }
{
    let columns = columns(list.owner);
    let start = size_of_tables(&header.sizes, before(list.owner));
    let width = row_width(&header.sizes, columns);
    header.from as u64
        + start
        + row as u64 * width
        + row_width(&header.sizes, first_columns(columns, list.column))
}

/// The tables before a table.
fn before(table: Table) -> &'static [Table]
    ensures tables { result.now ≡ take (place_of table) all_tables }
    ensures few { length result.now ≤ 38 }
{
    &TABLES[..place(table)]
}

fn first_columns(columns: &[Column], count: usize) -> &[Column]
    ensures columns { result.now ≡ take count columns.now }
    ensures few { length result.now ≤ length columns.now }
{
    if count < columns.len() {
        &columns[..count]
    } else {
        columns
    }
}
