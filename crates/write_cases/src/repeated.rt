//! `enums COUNT CASES;OFFSET:LENGTH ..` prints the image of so many enums, each with so many cases of the numbers from 0 on: how long it is, of
//! each table how many rows it has, the one in the middle and the last, and bytes of the image. An enum is `N.E` and its number in five digits, a
//! case `c` and its number in four. `readable COUNT PROPERTIES;..` and `settable ..` print the same of so many interfaces (the head of `properties`).

use crate::counted::enum_of;
use crate::properties::interface_of;
use crate::rows::{Which, push_image};
use crate::written::push_places;
use case_text::{decimal, halves};
use std::alloc::{AllocError, Global};
use winmd_write::image_of;
use wr_base::{Declaration, FullName, Stop, Types};

/// What is declared many times.
#[derive(Clone, Copy)]
pub enum Kind {
    /// Enums.
    Enum,
    /// Interfaces whose properties are read alone.
    Readable,
    /// Interfaces whose properties are put too.
    Settable,
}

fn named(
    alloc: Global,
    name: FullName,
    kind: Kind,
    n: u32,
    parts: u32,
) -> Result<Declaration, AllocError> {
    match kind {
        Kind::Enum => enum_of(alloc, name, parts),
        Kind::Readable => interface_of(alloc, name, n, parts, false),
        Kind::Settable => interface_of(alloc, name, n, parts, true),
    }
}

fn push_one(
    list: &mut Vec<Declaration>,
    alloc: Global,
    kind: Kind,
    n: u32,
    parts: u32,
) -> Result<(), AllocError> {
    match FullName::new(format!(in alloc; "N.E{n:05}")?) {
        Some(name) => Ok(list.push(named(alloc, name, kind, n, parts)?)?),
        None => Ok(()),
    }
}

fn list_of(
    alloc: Global,
    kind: Kind,
    count: u32,
    parts: u32,
) -> Result<Vec<Declaration>, AllocError> {
    let mut list = Vec::new(alloc);
    for n in 0..count {
        push_one(&mut list, alloc, kind, n, parts)?;
    }
    Ok(list)
}

fn set_of(alloc: Global, list: Vec<Declaration>) -> Result<Types, Stop<FullName>> {
    if list.len() >= 1 << 32 {
        return Err(Stop::Memory);
    }
    Types::from_list(alloc, list)
}

fn push_bytes(out: &mut String, bytes: &[u8], places: &str) -> Result<(), AllocError> {
    push_image(out, bytes, Which::Middle)?;
    push_places(out, bytes, places)
}

fn push_set(out: &mut String, types: &Types, places: &str) -> Result<(), AllocError> {
    match image_of(*out.allocator(), types) {
        Ok(bytes) => push_bytes(out, bytes.as_slice(), places),
        Err(_) => out.push_str("memory"),
    }
}

fn push_list(out: &mut String, list: Vec<Declaration>, places: &str) -> Result<(), AllocError> {
    match set_of(*out.allocator(), list) {
        Ok(types) => push_set(out, &types, places),
        Err(_) => out.push_str("memory"),
    }
}

/// The image of so many declarations with so many parts each.
pub fn many(out: &mut String, kind: Kind, case: &str) -> Result<(), AllocError> {
    let (numbers, places) = halves(case);
    let (count, parts) = numbers.split_once(' ').unwrap_or((numbers, ""));
    let list = list_of(*out.allocator(), kind, decimal(count), decimal(parts))?;
    push_list(out, list, places)
}
