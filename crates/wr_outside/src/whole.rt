// Whole files read and written, and whole texts put, over any store and sink.
ghost use Rattle.std.specs.Prelude.{◌≡◌, ◌≤◌, ◌<◌, ◌++◌, ℕ, length, take, drop, vec_len, IfOk, IfSome, OnErr, OnOk, IsErrOf};
ghost use Rattle.wr_outside.specs.Cause.{HasCause};
ghost use Rattle.wr_outside.specs.Files.{content_of, with_file, with_put, ReadsAt, WritesSome};
ghost use Rattle.wr_outside.specs.Whole.{IsWhole};

use crate::{Sink, SinkFault, Store, StoreFault};
use std::alloc::Global;
use thiserror::Error;

/// Why a file was not read whole.
#[derive(Clone, Copy, Debug, PartialEq, Eq, Error)]
pub enum ReadRefusal {
    #[error("the name is not held")]
    Missing,
    /// The file has this many bytes, which are more than the limit.
    #[error("the file has {0} bytes")]
    TooLong(u64),
    #[error("the store failed")]
    Fault,
    #[error("out of memory")]
    Memory,
}

// Fills the front of `into` with the file's bytes, and answers how many they are.
fn fill<S: Store>(store: &mut S, name: &str, into: &mut [u8]) -> Result<usize, StoreFault>
    ensures fits { IfOk result (λ n. n ≤ length into.new) }
    ensures told { IfSome (S.held store.old) (λ files. IfOk result (λ n. (take n into.new ≡ take n (content_of files name.now))
        × (n < length into.new → length (content_of files name.now) ≤ n))) }
    ensures kept { S.held store.new ≡ S.held store.old }
    ensures cause { HasCause StoreFault.Failed (S.faults store.old) (S.faults store.new) result }
{
    let mut filled = 0;
    while filled < into.len() {
        match store.read_at(name, filled as u64, &mut into[filled..]) {
            Ok(0) => return Ok(filled),
            Ok(count) => filled += count,
            Err(fault) => return Err(fault),
        }
    }
    Ok(filled)
}

/// Reads a file that has at most `limit` bytes: as many as the store tells, or up to an earlier end.
pub fn read_whole<S: Store>(
    alloc: Global,
    store: &mut S,
    name: &str,
    limit: u64,
) -> Result<Vec<u8>, ReadRefusal>
    ensures within { IfOk result (λ bytes. length bytes.items ≤ limit) }
    ensures told { IfSome (S.held store.old) (λ files. IsWhole files name.now limit result) }
    ensures kept { S.held store.new ≡ S.held store.old }
    ensures cause { HasCause ReadRefusal.Fault (S.faults store.old) (S.faults store.new) result }
{
    let size = match store.size(name) {
        Ok(Some(size)) => size,
        Ok(None) => return Err(ReadRefusal::Missing),
        Err(StoreFault::Failed) => return Err(ReadRefusal::Fault),
        Err(StoreFault::Memory) => return Err(ReadRefusal::Memory),
    };
    if size > limit {
        return Err(ReadRefusal::TooLong(size));
    }
    let mut bytes = match vec![in alloc; 0u8; size as usize] {
        Ok(bytes) => bytes,
        Err(_) => return Err(ReadRefusal::Memory),
    };
    match fill(store, name, &mut bytes) {
        Ok(count) => {
            bytes.truncate(count);
            Ok(bytes)
        }
        Err(StoreFault::Failed) => Err(ReadRefusal::Fault),
        Err(StoreFault::Memory) => Err(ReadRefusal::Memory),
    }
}

/// Creates the file with these bytes. After a refusal it is as before, or holds a prefix of them.
pub fn write_whole<S: Store>(store: &mut S, name: &str, bytes: &[u8]) -> Result<(), StoreFault>
    ensures ok { OnOk result (S.held store.new ≡ with_file (S.held store.old) name.now bytes.now) }
    ensures err { OnErr result (WritesSome (S.held store.old) (S.held store.new) name.now bytes.now) }
    ensures cause { HasCause StoreFault.Failed (S.faults store.old) (S.faults store.new) result }
{
    match store.create(name) {
        Ok(()) => {}
        Err(fault) => return Err(fault),
    }
    let mut written = 0;
    while written < bytes.len() {
        match store.append(name, &bytes[written..]) {
            Ok(count) => written += count,
            Err(fault) => return Err(fault),
        }
    }
    Ok(())
}

/// Puts all the bytes. It takes no memory itself. After a refusal a prefix of them was put.
pub fn put_all<O: Sink>(sink: &mut O, bytes: &[u8]) -> Result<(), SinkFault>
    ensures ok { OnOk result (O.told sink.new ≡ with_put (O.told sink.old) bytes.now) }
    ensures err { OnErr result ((n : ℕ) × (O.told sink.new ≡ with_put (O.told sink.old) (take n bytes.now))) }
    ensures cause { HasCause SinkFault.Failed (O.faults sink.old) (O.faults sink.new) result }
{
    let mut put = 0;
    while put < bytes.len() {
        match sink.put(&bytes[put..]) {
            Ok(count) => put += count,
            Err(fault) => return Err(fault),
        }
    }
    Ok(())
}
