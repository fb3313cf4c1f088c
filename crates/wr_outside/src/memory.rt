// A store and a sink in memory that fail at chosen calls.
ghost use Rattle.std.specs.Prelude.{◌≡◌, ◌<◌, ◌≤◌, ◌++◌, [], Some, IfOk, IfErr, OnOk, OnErr, length, take};
ghost use Rattle.std.specs.Option.{option_map};
ghost use Rattle.std.specs.FinMap as map;
ghost use Rattle.wr_outside.specs.Cause.{HasCause};
ghost use Rattle.wr_outside.specs.Files.{content_of, with_file, with_appended, with_put, ReadsAt};
ghost use Rattle.wr_outside.specs.Listed.{FailsWhereListed};

use crate::{Failures, NamedFiles, Sink, SinkFault, Store, StoreFault};
use std::alloc::Global;

/// Files in memory, and the calls that fail.
#[derive(Debug, Drop)]
pub struct MemoryStore {
    alloc: Global,
    pub files: NamedFiles,
    pub failures: Failures,
}

impl MemoryStore {
    /// A store of these files, whose calls of these numbers fail.
    pub fn new(alloc: Global, files: NamedFiles, failing: Vec<u64>) -> MemoryStore
        ensures files { result.files ≡ files }
        ensures listed { result.failures.listed.items ≡ failing.items }
        ensures calls { result.failures.calls ≡ 0 }
        ensures faults { result.failures.faults ≡ 0 }
    {
        MemoryStore {
            alloc,
            files,
            failures: Failures::new(failing),
        }
    }
}

impl Store for MemoryStore {
    ghost held = { λ s. Some s.files };

    ghost faults = { λ s. s.failures.faults };

    fn size(&mut self, name: &str) -> Result<Option<u64>, StoreFault>
        ensures told { IfOk result (λ size. size ≡ option_map length (map.get self.old.files name.now)) }
        ensures kept { self.new.files ≡ self.old.files }
        ensures cause { HasCause StoreFault.Failed self.old.failures.faults self.new.failures.faults result }
        ensures only { IfErr result (λ fault. fault ≡ StoreFault.Failed) }
        ensures listed { FailsWhereListed StoreFault.Failed self.old.failures self.new.failures result }
    {
        if self.failures.next_fails() {
            return Err(StoreFault::Failed);
        }
        Ok(self.files.size(name))
    }

    fn read_at(&mut self, name: &str, at: u64, into: &mut [u8]) -> Result<usize, StoreFault>
        ensures fits { IfOk result (λ n. n ≤ length into.new) }
        ensures told { IfOk result (ReadsAt (content_of self.old.files name.now) at into.new) }
        ensures kept { self.new.files ≡ self.old.files }
        ensures cause { HasCause StoreFault.Failed self.old.failures.faults self.new.failures.faults result }
        ensures only { IfErr result (λ fault. fault ≡ StoreFault.Failed) }
        ensures listed { FailsWhereListed StoreFault.Failed self.old.failures self.new.failures result }
    {
        if self.failures.next_fails() {
            return Err(StoreFault::Failed);
        }
        Ok(self.files.read_at(name, at, into))
    }

    fn create(&mut self, name: &str) -> Result<(), StoreFault>
        ensures ok { OnOk result (self.new.files ≡ map.insert self.old.files name.now []) }
        ensures err { OnErr result (self.new.files ≡ self.old.files) }
        ensures cause { HasCause StoreFault.Failed self.old.failures.faults self.new.failures.faults result }
        ensures listed { FailsWhereListed StoreFault.Failed self.old.failures self.new.failures result }
    {
        if self.failures.next_fails() {
            return Err(StoreFault::Failed);
        }
        match self.files.insert(self.alloc, name, Vec::new(self.alloc)) {
            Ok(()) => Ok(()),
            Err(_) => Err(StoreFault::Memory),
        }
    }

    fn append(&mut self, name: &str, bytes: &[u8]) -> Result<usize, StoreFault>
        ensures all { IfOk result (λ n. n ≡ length bytes.now) }
        ensures ok { OnOk result (self.new.files ≡ map.insert self.old.files name.now (content_of self.old.files name.now ++ bytes.now)) }
        ensures err { OnErr result (self.new.files ≡ self.old.files) }
        ensures cause { HasCause StoreFault.Failed self.old.failures.faults self.new.failures.faults result }
        ensures listed { FailsWhereListed StoreFault.Failed self.old.failures self.new.failures result }
    {
        if self.failures.next_fails() {
            return Err(StoreFault::Failed);
        }
        match self.files.append(self.alloc, name, bytes) {
            Ok(()) => Ok(bytes.len()),
            Err(_) => Err(StoreFault::Memory),
        }
    }
}

/// Bytes in memory, and the calls that fail.
#[derive(Debug, Drop)]
pub struct MemorySink {
    pub bytes: Vec<u8>,
    pub failures: Failures,
}

impl MemorySink {
    /// A sink that was told nothing yet, whose calls of these numbers fail.
    pub fn new(alloc: Global, failing: Vec<u64>) -> MemorySink
        ensures bytes { result.bytes.items ≡ [] }
        ensures listed { result.failures.listed.items ≡ failing.items }
        ensures calls { result.failures.calls ≡ 0 }
        ensures faults { result.failures.faults ≡ 0 }
    {
        MemorySink {
            bytes: Vec::new(alloc),
            failures: Failures::new(failing),
        }
    }
}

impl Sink for MemorySink {
    ghost told = { λ s. Some s.bytes.items };

    ghost faults = { λ s. s.failures.faults };

    fn put(&mut self, bytes: &[u8]) -> Result<usize, SinkFault>
        ensures all { IfOk result (λ n. n ≡ length bytes.now) }
        ensures ok { OnOk result (self.new.bytes.items ≡ self.old.bytes.items ++ bytes.now) }
        ensures err { OnErr result (self.new.bytes.items ≡ self.old.bytes.items) }
        ensures cause { HasCause SinkFault.Failed self.old.failures.faults self.new.failures.faults result }
        ensures listed { FailsWhereListed SinkFault.Failed self.old.failures self.new.failures result }
    {
        if self.failures.next_fails() {
            return Err(SinkFault::Failed);
        }
        match self.bytes.extend_from_slice(bytes) {
            Ok(()) => Ok(bytes.len()),
            Err(_) => Err(SinkFault::Memory),
        }
    }
}
