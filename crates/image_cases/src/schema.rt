//! The schema: `table NUMBER`, `columns NUMBER`, `tags INDEX`, `decode INDEX;CELL`, `encode INDEX;NUMBER;ROW` and `widths HEAPS;NUMBER=ROWS ..`. Numbers of
//! tables are hexadecimal.

use crate::numbers::push_number;
use case_text::{decimal, halves, hexadecimal};
use md_schema::{
    CUSTOM_ATTRIBUTE_TYPE, CodedIndex, Column, HAS_CUSTOM_ATTRIBUTE, Sizes, TYPE_DEF_OR_REF, Table,
    bits, choices, columns, decode, width,
};
use std::alloc::AllocError;

/// The table of this number.
pub fn table_of(text: &str) -> Option<Table> {
    Table::from_number((hexadecimal(text) % 256) as u8)
}

/// The name of the table of a number, where there is one.
pub fn table(out: &mut String, case: &str) -> Result<(), AllocError> {
    let alloc = *out.allocator();
    let found = table_of(case);
    out.push_str(format!(in alloc; "{found:?}")?.as_str())
}

fn push_columns(out: &mut String, table: Table) -> Result<(), AllocError> {
    let alloc = *out.allocator();
    out.push_str(format!(in alloc; "{:?}", columns(table))?.as_str())
}

/// The columns of a table.
pub fn columns_of(out: &mut String, case: &str) -> Result<(), AllocError> {
    match table_of(case) {
        Some(table) => push_columns(out, table),
        None => out.push_str("no table"),
    }
}

fn first_index(name: &str) -> Option<CodedIndex> {
    match name {
        "TypeDefOrRef" => Some(CodedIndex::TypeDefOrRef),
        "HasConstant" => Some(CodedIndex::HasConstant),
        "HasCustomAttribute" => Some(CodedIndex::HasCustomAttribute),
        "HasFieldMarshal" => Some(CodedIndex::HasFieldMarshal),
        "HasDeclSecurity" => Some(CodedIndex::HasDeclSecurity),
        "MemberRefParent" => Some(CodedIndex::MemberRefParent),
        _ => None,
    }
}

fn second_index(name: &str) -> Option<CodedIndex> {
    match name {
        "HasSemantics" => Some(CodedIndex::HasSemantics),
        "MethodDefOrRef" => Some(CodedIndex::MethodDefOrRef),
        "MemberForwarded" => Some(CodedIndex::MemberForwarded),
        "Implementation" => Some(CodedIndex::Implementation),
        "CustomAttributeType" => Some(CodedIndex::CustomAttributeType),
        "ResolutionScope" => Some(CodedIndex::ResolutionScope),
        "TypeOrMethodDef" => Some(CodedIndex::TypeOrMethodDef),
        _ => None,
    }
}

fn index_of(name: &str) -> Option<CodedIndex> {
    match first_index(name) {
        Some(index) => Some(index),
        None => second_index(name),
    }
}

fn push_tag(out: &mut String, index: CodedIndex, tag: u32) -> Result<(), AllocError> {
    let alloc = *out.allocator();
    match decode(index, tag) {
        Ok((table, _)) => out.push_str(format!(in alloc; " {:02x}", table.number())?.as_str()),
        Err(_) => out.push_str(" -"),
    }
}

fn push_tags(out: &mut String, index: CodedIndex) -> Result<(), AllocError> {
    let count = choices(index).len() as u32;
    push_number(out, bits(index) as u64, " ")?;
    push_number(out, count as u64, ":")?;
    for tag in 0..count {
        push_tag(out, index, tag)?;
    }
    Ok(())
}

/// How many bits the tag of a coded index has, how many tags there are, and the number of the table of each.
pub fn tags(out: &mut String, case: &str) -> Result<(), AllocError> {
    match index_of(case) {
        Some(index) => push_tags(out, index),
        None => out.push_str("no index"),
    }
}

/// The table and the row that a cell names.
pub fn decoded(out: &mut String, case: &str) -> Result<(), AllocError> {
    let alloc = *out.allocator();
    let (name, cell) = halves(case);
    let found = match name {
        "TypeDefOrRef" => TYPE_DEF_OR_REF.decode(decimal(cell)),
        "CustomAttributeType" => CUSTOM_ATTRIBUTE_TYPE.decode(decimal(cell)),
        _ => HAS_CUSTOM_ATTRIBUTE.decode(decimal(cell)),
    };
    out.push_str(format!(in alloc; "{found:?}")?.as_str())
}

fn code_of(name: &str, table: Table, row: u32) -> Option<u32> {
    match name {
        "TypeDefOrRef" => TYPE_DEF_OR_REF.encode(table, row % 0x4000_0000),
        "CustomAttributeType" => CUSTOM_ATTRIBUTE_TYPE.encode(table, row % 0x2000_0000),
        _ => HAS_CUSTOM_ATTRIBUTE.encode(table, row % 0x0800_0000),
    }
}

fn push_code(out: &mut String, code: Option<u32>) -> Result<(), AllocError> {
    let alloc = *out.allocator();
    out.push_str(format!(in alloc; "{code:?}")?.as_str())
}

/// The cell that names a row of a table.
pub fn encoded(out: &mut String, case: &str) -> Result<(), AllocError> {
    let (name, rest) = halves(case);
    let (number, row) = halves(rest);
    match table_of(number) {
        Some(table) => push_code(out, code_of(name, table, decimal(row))),
        None => out.push_str("no table"),
    }
}

fn sizes_of(heaps: &str, counts: &str) -> Sizes {
    let mut sizes = Sizes {
        long_texts: heaps.contains("texts"),
        long_guids: heaps.contains("guids"),
        long_blobs: heaps.contains("blobs"),
        rows: [0; 45],
    };
    for word in counts.split_whitespace() {
        let (number, count) = word.split_once('=').unwrap_or((word, ""));
        let place = hexadecimal(number) as usize;
        if place < 45 {
            sizes.rows[place] = decimal(count);
        }
    }
    sizes
}

// The columns that `widths` looks at.
static COLUMNS: [Column; 9] = [
    Column::One,
    Column::Two,
    Column::Four,
    Column::Texts,
    Column::Guids,
    Column::Blobs,
    Column::Index(Table::Field),
    Column::Index(Table::MethodDef),
    Column::Coded(CodedIndex::TypeDefOrRef),
];

fn push_width(out: &mut String, sizes: &Sizes, column: Column) -> Result<(), AllocError> {
    out.push_str(" ")?;
    push_number(out, width(sizes, column) as u64, "")
}

/// How many bytes a cell has: one, two, four, of the three heaps, of a row of Field, of MethodDef, and of TypeDefOrRef; and how many rows TypeDef has.
pub fn widths(out: &mut String, case: &str) -> Result<(), AllocError> {
    let (heaps, counts) = halves(case);
    let sizes = sizes_of(heaps, counts);
    push_number(out, sizes.count(Table::TypeDef) as u64, ":")?;
    for column in &COLUMNS {
        push_width(out, &sizes, *column)?;
    }
    Ok(())
}
