//! Cells as an answer spells them: a number; a text between `'`; the digits of a blob between brackets; a GUID by its number, between braces; a row
//! by its table and its number.

use case_text::push_runs;
use md_schema::Table;
use std::alloc::AllocError;
use winmd_cells::Value;

fn push_number(out: &mut String, n: u32) -> Result<(), AllocError> {
    let alloc = *out.allocator();
    out.push_str(format!(in alloc; "{n}")?.as_str())
}

fn push_text(out: &mut String, text: &[u8]) -> Result<(), AllocError> {
    out.push_str("'")?;
    out.push_str(std::str::from_utf8(text).unwrap_or("?"))?;
    out.push_str("'")
}

fn push_blob(out: &mut String, blob: &[u8]) -> Result<(), AllocError> {
    out.push_str("[")?;
    push_runs(out, blob)?;
    out.push_str("]")
}

fn push_guid(out: &mut String, n: u32) -> Result<(), AllocError> {
    let alloc = *out.allocator();
    out.push_str(format!(in alloc; "{{{n}}}")?.as_str())
}

fn push_row(out: &mut String, table: Table, n: u32) -> Result<(), AllocError> {
    let alloc = *out.allocator();
    out.push_str(format!(in alloc; "{table:?}:{n}")?.as_str())
}

/// Adds what a cell says.
pub fn push_value(out: &mut String, value: Value<'_>) -> Result<(), AllocError> {
    match value {
        Value::Number(n) => push_number(out, n),
        Value::Text(text) => push_text(out, text),
        Value::Blob(blob) => push_blob(out, blob),
        Value::Guid(n) => push_guid(out, n),
        Value::To(table, n) => push_row(out, table, n),
    }
}
