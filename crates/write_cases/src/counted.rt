//! `enum COUNT` prints the image of the enum `N.E` with so many cases, of the numbers from 0 on: how long it is, and of each table how many
//! rows it has and its last one. Each case is `c` and its number in four digits.

use crate::rows::{Which, push_image};
use case_text::decimal;
use std::alloc::{AllocError, Global};
use winmd_write::image_of;
use wr_base::{Case, Cases, Declaration, FullName, Listed, Name, Stop, Types};

fn push_case(cases: &mut Cases, alloc: Global, n: u32) -> Result<(), AllocError> {
    let name = Name::new(format!(in alloc; "c{n:04}")?);
    cases.push(Case {
        name,
        value: n as i128,
    })
}

fn cases_to(alloc: Global, count: u32) -> Result<Cases, AllocError> {
    let mut cases = Listed::new(alloc);
    for n in 0..count {
        push_case(&mut cases, alloc, n)?;
    }
    Ok(cases)
}

/// The enum of this name with so many cases.
pub fn enum_of(alloc: Global, name: FullName, count: u32) -> Result<Declaration, AllocError> {
    let cases = cases_to(alloc, count)?;
    Ok(Declaration::Enum {
        name,
        version: 1,
        flags: false,
        cases,
    })
}

fn set_of(alloc: Global, name: FullName, count: u32) -> Result<Types, Stop<FullName>> {
    let mut list = Vec::new(alloc);
    list.push(enum_of(alloc, name, count)?)?;
    Types::from_list(alloc, list)
}

fn push_set(out: &mut String, types: &Types) -> Result<(), AllocError> {
    match image_of(*out.allocator(), types) {
        Ok(bytes) => push_image(out, bytes.as_slice(), Which::Last),
        Err(_) => out.push_str("memory"),
    }
}

fn push_named(out: &mut String, name: FullName, count: u32) -> Result<(), AllocError> {
    match set_of(*out.allocator(), name, count) {
        Ok(types) => push_set(out, &types),
        Err(_) => out.push_str("memory"),
    }
}

/// The image of an enum with so many cases.
pub fn one_enum(out: &mut String, case: &str) -> Result<(), AllocError> {
    match FullName::new(String::from_str(*out.allocator(), "N.E")?) {
        Some(name) => push_named(out, name, decimal(case)),
        None => Ok(()),
    }
}
