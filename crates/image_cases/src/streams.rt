//! The stream of tables: `write HEAPS;ROWS` prints its bytes, `read BYTES` the rows in it, `shorter BYTES` what it is at each shorter length, and `row BYTES;INDEX` a
//! row of TypeDef.

use crate::numbers::push_fault;
use crate::rows::push_rows;
use case_text::{bytes_of, decimal, halves, push_runs};
use md_schema::{ImageFault, ImageKind, TABLES, Table};
use md_tables::{TableSet, TableView, is_writable, read_tables, write_tables};
use ranked::Stop;
use std::alloc::{AllocError, Global};

/// A set with long indices into these heaps.
fn set_of(alloc: Global, heaps: &str) -> Result<TableSet, AllocError> {
    let texts = heaps.contains("texts");
    let guids = heaps.contains("guids");
    let blobs = heaps.contains("blobs");
    TableSet::new(alloc, texts, guids, blobs)
}

fn push_stream(out: &mut String, set: &TableSet) -> Result<(), AllocError> {
    if !is_writable(set) {
        return out.push_str("no stream");
    }
    let bytes = write_tables(*out.allocator(), set)?;
    push_runs(out, &bytes)
}

/// The bytes of the stream of these rows.
pub fn write(out: &mut String, case: &str) -> Result<(), AllocError> {
    let alloc = *out.allocator();
    let (heaps, rows) = halves(case);
    let mut set = set_of(alloc, heaps)?;
    push_rows(&mut set, alloc, rows)?;
    push_stream(out, &set)
}

fn push_cell(out: &mut String, cell: u32) -> Result<(), AllocError> {
    let alloc = *out.allocator();
    out.push_str(format!(in alloc; " {cell}")?.as_str())
}

/// Adds the cells of a row.
pub fn push_cells(out: &mut String, cells: &[u32]) -> Result<(), AllocError> {
    for cell in cells {
        push_cell(out, *cell)?;
    }
    out.push_str("|")
}

fn push_name(out: &mut String, table: Table) -> Result<(), AllocError> {
    let alloc = *out.allocator();
    out.push_str(format!(in alloc; "{table:?}")?.as_str())
}

fn push_table(out: &mut String, view: &TableView, table: Table) -> Result<(), AllocError> {
    if view.count(table) > 0 {
        push_name(out, table)?;
    }
    for cells in view.rows(table) {
        push_cells(out, cells.as_slice())?;
    }
    Ok(())
}

fn push_view(out: &mut String, view: &TableView) -> Result<(), AllocError> {
    for table in &TABLES {
        push_table(out, view, *table)?;
    }
    Ok(())
}

fn push_read(out: &mut String, bytes: &[u8]) -> Result<(), AllocError> {
    match read_tables(*out.allocator(), bytes) {
        Ok(view) => push_view(out, &view),
        Err(Stop::Refused(fault)) => push_fault(out, &fault),
        Err(Stop::Memory) => out.push_str("memory"),
    }
}

/// The rows in the stream, or its first fault.
pub fn read(out: &mut String, case: &str) -> Result<(), AllocError> {
    let bytes = bytes_of(*out.allocator(), case)?;
    push_read(out, &bytes)
}

fn is_short(alloc: Global, bytes: &[u8]) -> bool {
    let fault = ImageFault {
        kind: ImageKind::ShortTable,
        offset: bytes.len() as u64,
    };
    match read_tables(alloc, bytes) {
        Err(Stop::Refused(found)) => found == fault,
        _ => false,
    }
}

fn push_short(out: &mut String, bytes: &[u8]) -> Result<(), AllocError> {
    let alloc = *out.allocator();
    let mut short = 0u32;
    let mut other = 0u32;
    for length in 0..bytes.len() {
        if is_short(alloc, &bytes[..length]) {
            short = short.saturating_add(1);
        } else {
            other = other.saturating_add(1);
        }
    }
    out.push_str(format!(in alloc; "{short} short, {other} not")?.as_str())
}

/// At how many shorter lengths the stream has the fault ShortTable at its end, and at how many it hasn't.
pub fn shorter(out: &mut String, case: &str) -> Result<(), AllocError> {
    let bytes = bytes_of(*out.allocator(), case)?;
    push_short(out, &bytes)
}

fn push_row(out: &mut String, view: &TableView, index: u32) -> Result<(), AllocError> {
    match view.row::<6>(Table::TypeDef, index) {
        Ok(row) => push_cells(out, row.cells.as_slice()),
        Err(fault) => push_fault(out, &fault),
    }
}

fn push_row_of(out: &mut String, bytes: &[u8], index: u32) -> Result<(), AllocError> {
    match read_tables(*out.allocator(), bytes) {
        Ok(view) => push_row(out, &view, index),
        Err(_) => out.push_str("refused"),
    }
}

/// The row of TypeDef of an index.
pub fn row(out: &mut String, case: &str) -> Result<(), AllocError> {
    let (bytes, index) = halves(case);
    let bytes = bytes_of(*out.allocator(), bytes)?;
    push_row_of(out, &bytes, decimal(index))
}
