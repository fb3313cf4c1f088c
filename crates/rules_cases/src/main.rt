//! Prints what signatures, identifiers and closed lists are, and what is broken in a set, to each line of the standard input. A line that begins with `#` is printed as it is.
#![tactic(auto)]

mod broken;
mod declared;
mod further;
mod given;
mod ids;
mod lists;
mod type_uses;

use case_text::decimal;
use given::{Given, declare, set, take, types_of};
use std::alloc::{AllocError, Global};
use std::io;

fn answer_of(
    alloc: Global,
    given: &mut Given,
    command: &str,
    case: &str,
) -> Result<String, AllocError> {
    match command {
        "set" => set(alloc, given),
        "use" => ids::uses(alloc, &given.types, case),
        "ids" => ids::ids(alloc, &given.types),
        "named" => ids::names(alloc, case),
        "chain" => ids::chain(alloc, decimal(case)),
        "broken" => broken::broken(alloc, take(alloc, given)),
        "many" => broken::many(alloc, given, case),
        "closed" => lists::closed(alloc, take(alloc, given)),
        kind => declare(alloc, given, kind, case),
    }
}

fn answer(rt: &HostRuntime, given: &mut Given, line: &str) -> io::Result<()> {
    let (command, case) = line.split_once(' ').unwrap_or((line, ""));
    if command == "#" {
        return println!(rt; "{line}");
    }
    match answer_of(rt.alloc(), given, command, case) {
        Ok(text) => println!(rt; "{text}"),
        Err(_) => println!(rt; "no memory"),
    }
}

fn cases(rt: &HostRuntime, given: &mut Given) -> io::Result<()> {
    for line in rt.lines(rt.alloc()) {
        answer(rt, given, line?.as_str())?;
    }
    Ok(())
}

fn main(rt: HostRuntime) -> io::Result<()> {
    let alloc = rt.alloc();
    match types_of(alloc, Vec::new(alloc)) {
        Ok(types) => {
            let mut given = Given {
                list: Vec::new(alloc),
                types,
            };
            cases(&rt, &mut given)
        }
        Err(_) => println!(rt; "no memory"),
    }
}
