//! Prints what the image half of the toolchain answers to each line of the standard input: numbers, heaps, the schema, the stream of tables, and what is read
//! from images. `docs/CONTRIBUTING.md` says how a case is spelled.
#![tactic(auto)]

mod built;
mod classes;
mod heap_texts;
mod heaps;
mod images;
mod limits;
mod numbers;
mod parts;
mod rows;
mod schema;
mod streams;
mod wide;

use std::alloc::AllocError;
use std::io;

// What is said of numbers and heaps.
fn answer_of(out: &mut String, command: &str, case: &str) -> Result<(), AllocError> {
    match command {
        "put" => numbers::put(out, case),
        "get" => numbers::get(out, case),
        "shortest" => numbers::shortest(out, case),
        "compressed" => numbers::integer(out, case),
        "text" => heaps::text(out, case),
        "blob" => heaps::blob(out, case),
        "guid" => heaps::guid(out, case),
        _ => answer_of_heap(out, command, case),
    }
}

fn answer_of_heap(out: &mut String, command: &str, case: &str) -> Result<(), AllocError> {
    match command {
        "texts" => heap_texts::texts(out, case),
        "blobs" => heap_texts::blobs(out, case),
        "guids" => heap_texts::guids(out, case),
        "numbered" => heap_texts::numbered(out, case),
        _ => answer_of_schema(out, command, case),
    }
}

fn answer_of_schema(out: &mut String, command: &str, case: &str) -> Result<(), AllocError> {
    match command {
        "table" => schema::table(out, case),
        "columns" => schema::columns_of(out, case),
        "tags" => schema::tags(out, case),
        "decode" => schema::decoded(out, case),
        "encode" => schema::encoded(out, case),
        "widths" => schema::widths(out, case),
        _ => answer_of_stream(out, command, case),
    }
}

fn answer_of_stream(out: &mut String, command: &str, case: &str) -> Result<(), AllocError> {
    match command {
        "write" => streams::write(out, case),
        "read" => streams::read(out, case),
        "shorter" => streams::shorter(out, case),
        "row" => streams::row(out, case),
        "wide" => wide::wide(out, case),
        _ => out.push_str("no such command"),
    }
}

// What is said of images; `base` is the image that edits are of.
fn answer_of_image(
    out: &mut String,
    base: &[u8],
    command: &str,
    case: &str,
) -> Result<(), AllocError> {
    match command {
        "edit" => images::edit(out, base, case),
        "cuts" => images::cuts(out, base),
        "built" => built::built(out, base, case),
        "cases" => limits::cases(out, base, case),
        _ => answer_of(out, command, case),
    }
}

fn answer(rt: &HostRuntime, base: &[u8], command: &str, case: &str) -> io::Result<()> {
    let mut out = String::new(rt.alloc());
    match answer_of_image(&mut out, base, command, case) {
        Ok(()) => println!(rt; "{out}"),
        Err(_) => println!(rt; "no memory"),
    }
}

fn set_base(base: &mut Vec<u8>, case: &str) -> io::Result<()> {
    *base = images::base(*base.allocator(), case)?;
    Ok(())
}

fn set_built(base: &mut Vec<u8>, case: &str) -> io::Result<()> {
    *base = built::image(*base.allocator(), base, case)?;
    Ok(())
}

fn line_answer(rt: &HostRuntime, base: &mut Vec<u8>, line: &str) -> io::Result<()> {
    let (command, case) = line.split_once(' ').unwrap_or((line, ""));
    match command {
        "#" => println!(rt; "{line}"),
        "base" => set_base(base, case),
        "rebase" => set_built(base, case),
        _ => answer(rt, base, command, case),
    }
}

fn main(rt: HostRuntime) -> io::Result<()> {
    let mut base = Vec::new(rt.alloc());
    for line in rt.lines(rt.alloc()) {
        line_answer(&rt, &mut base, line?.as_str())?;
    }
    Ok(())
}
