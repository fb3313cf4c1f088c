// A store and a sink in memory that never fail.
ghost use Rattle.std.specs.Prelude.{◌≡◌, ◌≤◌, ◌++◌, [], Some, IsOk, IfOk, IfErr, OnOk, OnErr, length};
ghost use Rattle.std.specs.Option.{option_map};
ghost use Rattle.std.specs.FinMap as map;
ghost use Rattle.wr_outside.specs.Files.{content_of, ReadsAt};

use crate::{NamedFiles, Sink, SinkFault, Store, StoreFault};
use std::alloc::Global;

/// Files in memory. It never fails, and refuses only what it has no memory for.
#[derive(Debug, Drop)]
pub struct SafeStore {
    alloc: Global,
    pub files: NamedFiles,
}

impl SafeStore {
    /// A store of these files.
    pub fn new(alloc: Global, files: NamedFiles) -> SafeStore
        ensures { result.files ≡ files }
    {
        SafeStore { alloc, files }
    }
}

impl Store for SafeStore {
    ghost held = { λ s. Some s.files };

    ghost faults = { λ _. 0 };

    fn size(&mut self, name: &str) -> Result<Option<u64>, StoreFault>
        ensures all { IsOk result }
        ensures told { IfOk result (λ size. size ≡ option_map length (map.get self.old.files name.now)) }
        ensures kept { self.new.files ≡ self.old.files }
    {
        Ok(self.files.size(name))
    }

    fn read_at(&mut self, name: &str, at: u64, into: &mut [u8]) -> Result<usize, StoreFault>
        ensures all { IsOk result }
        ensures fits { IfOk result (λ n. n ≤ length into.new) }
        ensures told { IfOk result (ReadsAt (content_of self.old.files name.now) at into.new) }
        ensures kept { self.new.files ≡ self.old.files }
    {
        Ok(self.files.read_at(name, at, into))
    }

    fn create(&mut self, name: &str) -> Result<(), StoreFault>
        ensures ok { OnOk result (self.new.files ≡ map.insert self.old.files name.now []) }
        ensures err { OnErr result (self.new.files ≡ self.old.files) }
        ensures only { IfErr result (λ fault. fault ≡ StoreFault.Memory) }
    {
        match self.files.insert(self.alloc, name, Vec::new(self.alloc)) {
            Ok(()) => Ok(()),
            Err(_) => Err(StoreFault::Memory),
        }
    }

    fn append(&mut self, name: &str, bytes: &[u8]) -> Result<usize, StoreFault>
        ensures all { IfOk result (λ n. n ≡ length bytes.now) }
        ensures ok { OnOk result (self.new.files ≡ map.insert self.old.files name.now (content_of self.old.files name.now ++ bytes.now)) }
        ensures err { OnErr result (self.new.files ≡ self.old.files) }
        ensures only { IfErr result (λ fault. fault ≡ StoreFault.Memory) }
    {
        match self.files.append(self.alloc, name, bytes) {
            Ok(()) => Ok(bytes.len()),
            Err(_) => Err(StoreFault::Memory),
        }
    }
}

/// Bytes in memory. Putting never fails, and refuses only what it has no memory for.
#[derive(Debug, Drop)]
pub struct SafeSink {
    pub bytes: Vec<u8>,
}

impl SafeSink {
    /// A sink that was told nothing yet.
    pub fn new(alloc: Global) -> SafeSink
        ensures { result.bytes.items ≡ [] }
    {
        SafeSink {
            bytes: Vec::new(alloc),
        }
    }
}

impl Sink for SafeSink {
    ghost told = { λ s. Some s.bytes.items };

    ghost faults = { λ _. 0 };

    fn put(&mut self, bytes: &[u8]) -> Result<usize, SinkFault>
        ensures all { IfOk result (λ n. n ≡ length bytes.now) }
        ensures ok { OnOk result (self.new.bytes.items ≡ self.old.bytes.items ++ bytes.now) }
        ensures err { OnErr result (self.new.bytes.items ≡ self.old.bytes.items) }
        ensures only { IfErr result (λ fault. fault ≡ SinkFault.Memory) }
    {
        match self.bytes.extend_from_slice(bytes) {
            Ok(()) => Ok(bytes.len()),
            Err(_) => Err(SinkFault::Memory),
        }
    }
}
