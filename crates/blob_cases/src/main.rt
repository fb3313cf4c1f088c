//! Prints what each line of the standard input asks for: a command and a blob in hexadecimal digits. A line that begins with `#` is printed as it is.
#![tactic(auto)]

mod again;
mod built;
mod known;
mod reading;
mod values;

use again::again;
use built::built;
use known::{Known, known_types};
use reading::read;
use std::alloc::{AllocError, Global};
use std::io;
use values::{first, value};

fn bytes_of(alloc: Global, text: &str) -> Vec<u8> {
    match hex::decode(alloc, text) {
        Ok(bytes) => bytes,
        Err(_) => Vec::new(alloc),
    }
}

fn answer(alloc: Global, known: &Known, command: &str, rest: &str) -> Result<String, AllocError> {
    if command == "value" {
        return value(alloc, rest);
    }
    if let Some(what) = command.strip_prefix("first-") {
        return first(alloc, what, &bytes_of(alloc, rest));
    }
    if let Some(what) = command.strip_prefix("again-") {
        return again(alloc, known, what, &bytes_of(alloc, rest));
    }
    if let Some(what) = command.strip_prefix("built-") {
        return built(alloc, known, what, rest);
    }
    read(alloc, known, command, &bytes_of(alloc, rest))
}

fn case(rt: &HostRuntime, known: &Known, line: &str) -> io::Result<()> {
    let (command, rest) = line.split_once(' ').unwrap_or((line, ""));
    if command == "#" {
        return println!(rt; "{line}");
    }
    match answer(rt.alloc(), known, command, rest) {
        Ok(text) => println!(rt; "{text}"),
        Err(_) => println!(rt; "no memory"),
    }
}

fn cases(rt: &HostRuntime, known: &Known) -> io::Result<()> {
    for line in rt.lines(rt.alloc()) {
        case(rt, known, line?.as_str())?;
    }
    Ok(())
}

fn main(rt: HostRuntime) -> io::Result<()> {
    match known_types(rt.alloc()) {
        Ok(known) => cases(&rt, &known),
        Err(_) => println!(rt; "no memory"),
    }
}
