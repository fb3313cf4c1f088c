//! Prints what source sets and the tool answer to each line of the standard input. `docs/CONTRIBUTING.md` says how a case is spelled.
#![tactic(auto)]

mod calls;
mod files;
mod images;
mod parts;
mod sets;
mod tool;

use std::alloc::AllocError;
use std::io;

fn answer_of(out: &mut String, command: &str, case: &str) -> Result<(), AllocError> {
    match command {
        "sources" => sets::set(out, case),
        "tool" => tool::tool(out, case),
        "image" => images::image(out, case),
        "bytes" => images::bytes(out, case),
        "reread" => images::reread(out, case),
        "calls" => calls::calls(out, case),
        _ => out.push_str("no such command"),
    }
}

fn answer(rt: &HostRuntime, command: &str, case: &str) -> io::Result<()> {
    let mut out = String::new(rt.alloc());
    match answer_of(&mut out, command, case) {
        Ok(()) => println!(rt; "{out}"),
        Err(_) => println!(rt; "no memory"),
    }
}

fn line_answer(rt: &HostRuntime, line: &str) -> io::Result<()> {
    let (command, case) = line.split_once(' ').unwrap_or((line, ""));
    match command {
        "#" => println!(rt; "{line}"),
        _ => answer(rt, command, case),
    }
}

fn main(rt: HostRuntime) -> io::Result<()> {
    for line in rt.lines(rt.alloc()) {
        line_answer(&rt, line?.as_str())?;
    }
    Ok(())
}
