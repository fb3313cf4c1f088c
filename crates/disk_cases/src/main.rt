//! Prints what real files and writers answer to each line of the standard input, in the folder in which it runs. A line that begins with `#` is printed as it is.
#![tactic(auto)]

mod files;
mod writers;

use std::alloc::AllocError;
use std::io;
use winrt_run::Disk;

fn answer_of(rt: &HostRuntime, command: &str, case: &str) -> Result<String, AllocError> {
    let mut disk = Disk::new(rt);
    match command {
        "size" => files::size(rt.alloc(), &mut disk, case),
        "read" => files::read(rt.alloc(), &mut disk, case),
        "create" => files::create(rt.alloc(), &mut disk, case),
        "append" => files::append(rt.alloc(), &mut disk, case),
        "room" => writers::room(rt.alloc(), case),
        "put" => writers::put(rt, case),
        _ => String::from_str(rt.alloc(), "no such command"),
    }
}

fn answer(rt: &HostRuntime, line: &str) -> io::Result<()> {
    let (command, case) = line.split_once(' ').unwrap_or((line, ""));
    match answer_of(rt, command, case) {
        Ok(text) => println!(rt; "{text}"),
        Err(_) => println!(rt; "no memory"),
    }
}

fn main(rt: HostRuntime) -> io::Result<()> {
    for line in rt.lines(rt.alloc()) {
        let line = line?;
        if line.as_str().starts_with("#") {
            let text = line.as_str();
            println!(rt; "{text}")?;
        } else {
            answer(&rt, line.as_str())?;
        }
    }
    Ok(())
}
