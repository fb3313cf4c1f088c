//! Prints what `wr_base` answers of uses, sets of declarations and ids, and what `wr_outside` does in memory, to each line of the standard input.
//! `docs/CONTRIBUTING.md` says how a case is spelled.
#![tactic(auto)]

mod declared;
mod failing;
mod outside;
mod type_uses;

use std::alloc::AllocError;
use std::io;

// What is said of declarations.
fn push_answer(out: &mut String, command: &str, case: &str) -> Result<(), AllocError> {
    match command {
        "use" => type_uses::type_use(out, case),
        "types" => declared::types(out, case),
        "useids" => declared::use_ids(out, case),
        "codes" => declared::codes(out),
        _ => push_outside(out, command, case),
    }
}

fn push_outside(out: &mut String, command: &str, case: &str) -> Result<(), AllocError> {
    match command {
        "calls" => outside::calls(out, case),
        "puts" => outside::puts(out, case),
        "whole" => outside::whole(out, case),
        "written" => outside::written(out, case),
        "safe" => outside::safe(out, case),
        _ => out.push_str("no such command"),
    }
}

fn answer(rt: &HostRuntime, command: &str, case: &str) -> io::Result<()> {
    let mut out = String::new(rt.alloc());
    match push_answer(&mut out, command, case) {
        Ok(()) => println!(rt; "{out}"),
        Err(_) => println!(rt; "no memory"),
    }
}

fn line_answer(rt: &HostRuntime, line: &str) -> io::Result<()> {
    let (command, case) = line.split_once(' ').unwrap_or((line, ""));
    match command {
        "#" => println!(rt; "{line}"),
        _ => answer(rt, command, case),
    }
}

fn main(rt: HostRuntime) -> io::Result<()> {
    for line in rt.lines(rt.alloc()) {
        line_answer(&rt, line?.as_str())?;
    }
    Ok(())
}
