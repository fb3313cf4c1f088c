//! The rows of an image, each cell followed: the name of each table that has rows, and `CELL CELL ..|` for each row.

ghost use Rattle.std.specs.Prelude.{◌≡◌};
ghost use Rattle.md_schema.specs.Tables.{raw};
ghost use Rattle.md_schema.specs.declared.table.Table as tables;
ghost use Rattle.md_tables.specs.Rows.{rows_of};

use crate::cells::push_value;
use md_schema::{TABLES, Table, columns};
use md_tables::{TableView, read_tables};
use std::alloc::AllocError;
use strings_heap::StringsHeap;
use winmd_cells::{Image, places_of};
use winmd_image::{Streams, unwrap};

/// Which rows of a table are printed: all; how many there are, and the last; or how many, the one in the middle and the last.
#[derive(Clone, Copy)]
pub enum Which {
    All,
    Last,
    Middle,
}

fn push_cell(
    out: &mut String,
    image: &Image<'_>,
    table: Table,
    n: u32,
    column: usize,
) -> Result<(), AllocError> {
    if column > 0 {
        out.push_str(" ")?;
    }
    match image.cell(table, n, column) {
        Ok(value) => push_value(out, value),
        Err(_) => out.push_str("?"),
    }
}

fn push_row(out: &mut String, image: &Image<'_>, table: Table, n: u32) -> Result<(), AllocError> {
    for column in 0..columns(table).len() {
        push_cell(out, image, table, n, column)?;
    }
    out.push_str("|")
}

fn push_name(out: &mut String, table: Table) -> Result<(), AllocError> {
    let alloc = *out.allocator();
    out.push_str(format!(in alloc; " {table:?} ")?.as_str())
}

fn push_all(out: &mut String, image: &Image<'_>, table: Table) -> Result<(), AllocError> {
    for n in image.all_rows(table) {
        push_row(out, image, table, *n)?;
    }
    Ok(())
}

fn push_last(out: &mut String, image: &Image<'_>, table: Table) -> Result<(), AllocError> {
    let alloc = *out.allocator();
    let count = image.count(table);
    out.push_str(format!(in alloc; "{count} ")?.as_str())?;
    push_row(out, image, table, count)
}

fn push_middle(out: &mut String, image: &Image<'_>, table: Table) -> Result<(), AllocError> {
    let alloc = *out.allocator();
    let count = image.count(table);
    out.push_str(format!(in alloc; "{count} ")?.as_str())?;
    push_row(out, image, table, count - count / 2)?;
    push_row(out, image, table, count)
}

fn push_table(
    out: &mut String,
    image: &Image<'_>,
    table: Table,
    which: Which,
) -> Result<(), AllocError> {
    if image.count(table) == 0 {
        return Ok(());
    }
    push_name(out, table)?;
    match which {
        Which::All => push_all(out, image, table),
        Which::Last => push_last(out, image, table),
        Which::Middle => push_middle(out, image, table),
    }
}

fn push_tables(out: &mut String, image: &Image<'_>, which: Which) -> Result<(), AllocError> {
    for table in &TABLES {
        push_table(out, image, *table, which)?;
    }
    Ok(())
}

fn push_view(
    out: &mut String,
    view: &TableView,
    stream: &[u8],
    at: u64,
    texts: &[u8],
    blobs: &[u8],
    which: Which,
) -> Result<(), AllocError>
    requires { (table : tables.Table) → rows_of view.now table ≡ raw stream.now table }
{
    if at >= 1 << 60 {
        return Ok(());
    }
    let places = places_of(*out.allocator(), stream)?;
    let heap = StringsHeap::new(*out.allocator(), texts)?;
    let image = Image::new(view, stream, at, &heap, blobs, &places);
    push_tables(out, &image, which)
}

fn push_streams(out: &mut String, streams: &Streams<'_>, which: Which) -> Result<(), AllocError> {
    let stream = streams.tables.bytes;
    let texts = streams.texts.bytes;
    let blobs = streams.blobs.bytes;
    match read_tables(*out.allocator(), stream) {
        Ok(view) => push_view(
            out,
            &view,
            stream,
            streams.tables.offset,
            texts,
            blobs,
            which,
        ),
        Err(_) => out.push_str("no rows"),
    }
}

/// How long an image is, and its rows.
pub fn push_image(out: &mut String, bytes: &[u8], which: Which) -> Result<(), AllocError> {
    let alloc = *out.allocator();
    let length = bytes.len();
    out.push_str(format!(in alloc; "{length}")?.as_str())?;
    match unwrap(bytes) {
        Ok(streams) => push_streams(out, &streams, which),
        Err(_) => out.push_str("no streams"),
    }
}
