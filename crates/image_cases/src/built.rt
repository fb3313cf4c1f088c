//! `built NUMBER=ROW,ROW NUMBER=ROW ..;TEXTS;BLOBS;BITS` prints what is read from an image with these tables and further entries of `#Strings` and
//! `#Blob`, and with these bits for wide indices into heaps, of which none is set where they are left out. The bytes of rows are hexadecimal, and tables
//! stand in the order of their numbers. `rebase` before the same says that this is the image which is edited from here on.

use crate::images::push_found;
use crate::parts::Parts;
use crate::schema::table_of;
use case_text::{bytes_of, decimal, halves, push_bytes};
use md_schema::Table;
use std::alloc::{AllocError, Global};

fn push_row(parts: &mut Parts, alloc: Global, row: &str) -> Result<(), AllocError> {
    let mut bytes = Vec::new(alloc);
    push_bytes(&mut bytes, row)?;
    parts.row(&bytes)
}

fn push_table(
    parts: &mut Parts,
    alloc: Global,
    table: Table,
    rows: &str,
) -> Result<(), AllocError> {
    parts.begin(table, rows.split(',').count())?;
    for row in rows.split(',') {
        push_row(parts, alloc, row)?;
    }
    Ok(())
}

fn push_tables(parts: &mut Parts, alloc: Global, tables: &str) -> Result<(), AllocError> {
    for word in tables.split_whitespace() {
        let (number, rows) = word.split_once('=').unwrap_or((word, ""));
        if let Some(table) = table_of(number) {
            push_table(parts, alloc, table, rows)?;
        }
    }
    Ok(())
}

fn fill(parts: &mut Parts, alloc: Global, case: &str) -> Result<(), AllocError> {
    let (tables, rest) = halves(case);
    let (texts, rest) = halves(rest);
    let (blobs, bits) = halves(rest);
    parts.bits = (decimal(bits) % 8) as u8;
    parts.texts = bytes_of(alloc, texts)?;
    parts.blobs = bytes_of(alloc, blobs)?;
    push_tables(parts, alloc, tables)
}

/// The image with these parts.
pub fn image(alloc: Global, base: &[u8], case: &str) -> Result<Vec<u8>, AllocError> {
    let mut parts = Parts::new(alloc);
    fill(&mut parts, alloc, case)?;
    parts.image(alloc, base)
}

/// What is found in the image.
pub fn built(out: &mut String, base: &[u8], case: &str) -> Result<(), AllocError> {
    let image = image(*out.allocator(), base, case)?;
    push_found(out, &image)
}
