//! Calls of sinks over writers.

use std::alloc::{AllocError, Global};
use std::fs::File;
use winrt_run::Stream;
use wr_outside::Sink;

/// `room TEXT` puts it twice on a buffer that has room for four bytes.
pub fn room(alloc: Global, text: &str) -> Result<String, AllocError> {
    let mut room = [0u8; 4];
    let mut full = Stream::new(room.as_mut_slice());
    let first = full.put(text.as_bytes());
    let second = full.put(text.as_bytes());
    format!(in alloc; "{first:?} {second:?}")
}

/// `put NAME TEXT` puts it on a file that is opened for reading.
pub fn put(rt: &HostRuntime, case: &str) -> Result<String, AllocError> {
    let (name, text) = case.split_once(' ').unwrap_or((case, ""));
    match File::open(rt, name) {
        Ok(file) => {
            let count = Stream::new(file).put(text.as_bytes());
            format!(in rt.alloc(); "{count:?}")
        }
        Err(_) => String::from_str(rt.alloc(), "not opened"),
    }
}
