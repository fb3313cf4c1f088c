//! Prints what the front half of the toolchain answers to each line of the standard input: tokens, trees, names, full types and what is broken in them. `docs/CONTRIBUTING.md` says how a case is
//! spelled.
#![tactic(auto)]

mod faults;
mod full;
mod full_text;
mod lexing;
mod names;
mod said;
mod set_text;
mod tree_text;
mod trees;

use std::alloc::AllocError;
use std::io;

fn answer_of(out: &mut String, command: &str, case: &str) -> Result<(), AllocError> {
    match command {
        "lex" => lexing::lex(out, case),
        "number" => lexing::number(out, case),
        "tree" => trees::tree(out, case),
        "ends" => trees::ends(out, case),
        "ids" => trees::ids(out, case),
        "names" => names::names(out, case),
        "full" => full::full_types(out, case),
        "check" => faults::check(out, case),
        _ => out.push_str("no such command"),
    }
}

fn answer(rt: &HostRuntime, command: &str, case: &str) -> io::Result<()> {
    let mut out = String::new(rt.alloc());
    match answer_of(&mut out, command, case) {
        Ok(()) => println!(rt; "{out}"),
        Err(_) => println!(rt; "no memory"),
    }
}

fn line_answer(rt: &HostRuntime, line: &str) -> io::Result<()> {
    let (command, case) = line.split_once(' ').unwrap_or((line, ""));
    match command {
        "#" => println!(rt; "{line}"),
        _ => answer(rt, command, case),
    }
}

fn main(rt: HostRuntime) -> io::Result<()> {
    for line in rt.lines(rt.alloc()) {
        line_answer(&rt, line?.as_str())?;
    }
    Ok(())
}
