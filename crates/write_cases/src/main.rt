//! Prints what the writer of sets answers to each line of the standard input: the rows of images with each cell followed, and bytes of them.
//! `docs/CONTRIBUTING.md` says how a case is spelled.
#![tactic(auto)]

mod cells;
mod counted;
mod properties;
mod repeated;
mod rows;
mod sources;
mod written;

use repeated::{Kind, many};
use std::alloc::AllocError;
use std::io;

fn answer_of(out: &mut String, command: &str, case: &str) -> Result<(), AllocError> {
    match command {
        "rows" => written::rows(out, case),
        "bytes" => written::bytes(out, case),
        "enum" => counted::one_enum(out, case),
        "enums" => many(out, Kind::Enum, case),
        "readable" => many(out, Kind::Readable, case),
        "settable" => many(out, Kind::Settable, case),
        _ => out.push_str("no such command"),
    }
}

fn answer(rt: &HostRuntime, command: &str, case: &str) -> io::Result<()> {
    let mut out = String::new(rt.alloc());
    match answer_of(&mut out, command, case) {
        Ok(()) => println!(rt; "{out}"),
        Err(_) => println!(rt; "no memory"),
    }
}

fn line_answer(rt: &HostRuntime, line: &str) -> io::Result<()> {
    let (command, case) = line.split_once(' ').unwrap_or((line, ""));
    match command {
        "#" => println!(rt; "{line}"),
        _ => answer(rt, command, case),
    }
}

fn main(rt: HostRuntime) -> io::Result<()> {
    for line in rt.lines(rt.alloc()) {
        line_answer(&rt, line?.as_str())?;
    }
    Ok(())
}
