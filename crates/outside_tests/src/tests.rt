ghost use Rattle.std.specs.Prelude.{None};

use std::alloc::{AllocError, Global};
use std::test::Fail;
use wr_outside::{
    ReadRefusal, Sink, SinkFault, Store, StoreFault, put_all, read_whole, write_whole,
};

// Whether this file is read as this text.
fn reads<S: Store>(alloc: Global, store: &mut S, limit: u64, text: &str) -> bool {
    match read_whole(alloc, store, "a", limit) {
        Ok(bytes) => bytes.as_slice() == text.as_bytes(),
        Err(_) => false,
    }
}

fn refuses<S: Store>(
    alloc: Global,
    store: &mut S,
    name: &str,
    limit: u64,
    refusal: ReadRefusal,
) -> bool {
    match read_whole(alloc, store, name, limit) {
        Ok(_) => false,
        Err(given) => given == refusal,
    }
}

// A file of every name and a sink at once, which tells nothing. Its size is whatever it says, a call gives or takes
// one byte, and putting fails once no calls are left.
#[derive(Drop)]
struct Hidden {
    size: Option<u64>,
    bytes: Vec<u8>,
    calls_left: u64,
    faults: u64,
}

impl Sink for Hidden {
    ghost told = { λ _. None };

    ghost faults = { λ h. h.faults };

    fn put(&mut self, bytes: &[u8]) -> Result<usize, SinkFault> {
        if self.calls_left == 0 {
            self.faults = self.faults.saturating_add(1);
            return Err(SinkFault::Failed);
        }
        self.calls_left -= 1;
        let Some(first) = bytes.first() else {
            return Ok(0);
        };
        match self.bytes.push(*first) {
            Ok(()) => Ok(1),
            Err(_) => Err(SinkFault::Memory),
        }
    }
}

impl Store for Hidden {
    ghost held = { λ _. None };

    ghost faults = { λ h. h.faults };

    fn size(&mut self, _name: &str) -> Result<Option<u64>, StoreFault> {
        Ok(self.size)
    }

    fn read_at(&mut self, _name: &str, at: u64, into: &mut [u8]) -> Result<usize, StoreFault> {
        if at >= self.bytes.len() as u64 || into.is_empty() {
            return Ok(0);
        }
        into[0] = self.bytes[at as usize];
        Ok(1)
    }

    fn create(&mut self, _name: &str) -> Result<(), StoreFault> {
        self.bytes.clear();
        Ok(())
    }

    fn append(&mut self, _name: &str, bytes: &[u8]) -> Result<usize, StoreFault> {
        match self.put(bytes) {
            Ok(count) => Ok(count),
            Err(SinkFault::Failed) => Err(StoreFault::Failed),
            Err(SinkFault::Memory) => Err(StoreFault::Memory),
        }
    }
}

fn hiding(alloc: Global, size: Option<u64>, calls_left: u64) -> Result<Hidden, AllocError> {
    let bytes = Vec::from_slice(alloc, b"abc")?;
    Ok(Hidden {
        size,
        bytes,
        calls_left,
        faults: 0,
    })
}

#[test]
fn stores_that_tell_nothing(rt: HostRuntime) -> Result<(), Fail> {
    let alloc = rt.alloc();
    // The size that the store says of `abc`, and what is read.
    for (size, read) in [(5, "abc"), (3, "abc"), (2, "ab"), (0, "")] {
        let mut store = hiding(alloc, Some(size), 0)?;
        assert!(rt; reads(alloc, &mut store, 5, read));
    }
    for (size, refusal) in [
        (None, ReadRefusal::Missing),
        (Some(6), ReadRefusal::TooLong(6)),
    ] {
        let mut store = hiding(alloc, size, 0)?;
        assert!(rt; refuses(alloc, &mut store, "a", 5, refusal));
    }
    Ok(())
}

#[test]
fn writing_stops_in_mid_stream(rt: HostRuntime) -> Result<(), Fail> {
    for (calls_left, written) in [(0, ""), (2, "ne"), (3, "new")] {
        let mut store = hiding(rt.alloc(), None, calls_left)?;
        assert!(rt; write_whole(&mut store, "a", b"new").is_ok() == (calls_left == 3));
        assert!(rt; store.bytes.as_slice() == written.as_bytes());
        let mut sink = hiding(rt.alloc(), None, calls_left)?;
        sink.bytes.clear();
        assert!(rt; put_all(&mut sink, b"new").is_ok() == (calls_left == 3));
        assert!(rt; sink.bytes.as_slice() == written.as_bytes());
    }
    Ok(())
}
