//! `wide NUMBER:COUNT;NUMBER:CELL,CELL ..;OFFSET:LENGTH` prints, for the stream of so many rows of three cells and of one row of another table, its length, bytes in
//! it, that one row as it is read, and the first and the last of the others. The first of their cells is the number of the row, from 0.

use crate::numbers::push_number;
use crate::rows::{push, push_spelled};
use crate::schema::table_of;
use crate::streams::push_cells;
use case_text::{decimal, halves, push_runs};
use md_schema::Table;
use md_tables::{TableSet, TableView, is_writable, read_tables, write_tables};
use std::alloc::{AllocError, Global};

// The table of a number, and what stands behind the colon.
fn table_and(text: &str) -> (Option<Table>, &str) {
    let (number, rest) = text.split_once(':').unwrap_or((text, ""));
    (table_of(number), rest)
}

fn push_numbered(set: &mut TableSet, table: Table, count: u32) -> Result<(), AllocError> {
    for number in 0..count {
        push(set, table, &[number % 65_536, 2, 3])?;
    }
    Ok(())
}

fn push_many(set: &mut TableSet, many: &str) -> Result<(), AllocError> {
    match table_and(many) {
        (Some(table), count) => push_numbered(set, table, decimal(count)),
        _ => Ok(()),
    }
}

fn push_one(set: &mut TableSet, alloc: Global, one: &str) -> Result<(), AllocError> {
    match table_and(one) {
        (Some(table), cells) => push_spelled(set, alloc, table, cells),
        _ => Ok(()),
    }
}

fn set_of(alloc: Global, many: &str, one: &str) -> Result<TableSet, AllocError> {
    let mut set = TableSet::new(alloc, false, false, false)?;
    push_many(&mut set, many)?;
    push_one(&mut set, alloc, one)?;
    Ok(set)
}

fn push_ends(out: &mut String, view: &TableView, table: Option<Table>) -> Result<(), AllocError> {
    let Some(table) = table else {
        return Ok(());
    };
    let rows = view.rows(table);
    if let [first, ..] = rows {
        push_cells(out, first.as_slice())?;
    }
    if let [_, .., last] = rows {
        push_cells(out, last.as_slice())?;
    }
    Ok(())
}

fn push_view(out: &mut String, view: &TableView, many: &str, one: &str) -> Result<(), AllocError> {
    push_ends(out, view, table_and(one).0)?;
    push_ends(out, view, table_and(many).0)
}

fn push_read(out: &mut String, bytes: &[u8], many: &str, one: &str) -> Result<(), AllocError> {
    match read_tables(*out.allocator(), bytes) {
        Ok(view) => push_view(out, &view, many, one),
        Err(_) => out.push_str("refused"),
    }
}

fn push_part(out: &mut String, bytes: &[u8], place: &str) -> Result<(), AllocError> {
    let (from, length) = place.split_once(':').unwrap_or((place, ""));
    let from = decimal(from) as usize;
    let to = from.saturating_add(decimal(length) as usize);
    push_number(out, bytes.len() as u64, " ")?;
    push_runs(out, bytes.get(from..to).unwrap_or(&[]))
}

// The stream, where the set has one.
fn stream_of(alloc: Global, many: &str, one: &str) -> Result<Option<Vec<u8>>, AllocError> {
    let set = set_of(alloc, many, one)?;
    if !is_writable(&set) {
        return Ok(None);
    }
    Ok(Some(write_tables(alloc, &set)?))
}

fn push_stream(
    out: &mut String,
    bytes: &[u8],
    many: &str,
    one: &str,
    place: &str,
) -> Result<(), AllocError> {
    push_part(out, bytes, place)?;
    push_read(out, bytes, many, one)
}

/// The length of the stream, bytes in it, and its first and last rows.
pub fn wide(out: &mut String, case: &str) -> Result<(), AllocError> {
    let (many, rest) = halves(case);
    let (one, place) = halves(rest);
    match stream_of(*out.allocator(), many, one)? {
        Some(bytes) => push_stream(out, &bytes, many, one, place),
        None => out.push_str("no stream"),
    }
}
