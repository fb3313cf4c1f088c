// What the tools ask of the outside: a store of files and a sink of bytes.
ghost use Rattle.std.specs.Prelude.{◌≡◌, ◌⊎◌, ◌<◌, ◌≤◌, ◌++◌, [], ℕ, List, Option, Some, length, take, IfOk, IfSome, OnErr, OnOk};
ghost use Rattle.std.specs.Option.{option_map};
ghost use Rattle.std.specs.FinMap as map;
ghost use Rattle.wr_outside.specs.Cause.{HasCause};
ghost use Rattle.wr_outside.specs.Files.{Files, content_of, with_file, with_appended, with_put, AppendsSome, ReadsAt};

use thiserror::Error;

/// Why a store refused a call.
#[derive(Clone, Copy, Debug, PartialEq, Eq, Error)]
pub enum StoreFault {
    #[error("the store failed")]
    Failed,
    #[error("out of memory")]
    Memory,
}

/// Why a sink refused a call.
#[derive(Clone, Copy, Debug, PartialEq, Eq, Error)]
pub enum SinkFault {
    #[error("the sink failed")]
    Failed,
    #[error("out of memory")]
    Memory,
}

/// Files by name. A name that isn't held is read from and appended to as an empty file is.
pub trait Store {
    /// The files that it holds, where it tells them. A store that tells before a call tells after it.
    ghost held: { Self → Option Files };

    /// How often it has failed, as far as a u64 counts.
    ghost faults: { Self → ℕ };

    /// The length of the file, or None where the name isn't held.
    fn size(&mut self, name: &str) -> Result<Option<u64>, StoreFault>
        ensures told { IfSome (held self.old) (λ files. IfOk result (λ size. size ≡ option_map length (map.get files name.now))) }
        ensures kept { held self.new ≡ held self.old }
        ensures cause { HasCause StoreFault.Failed (faults self.old) (faults self.new) result };

    /// Fills a prefix of `into` with the bytes from `at` on, and answers how many: 0 only at or past the end, or where `into` is empty.
    fn read_at(&mut self, name: &str, at: u64, into: &mut [u8]) -> Result<usize, StoreFault>
        ensures fits { IfOk result (λ n. n ≤ length into.new) }
        ensures told { IfSome (held self.old) (λ files. IfOk result (ReadsAt (content_of files name.now) at into.new)) }
        ensures kept { held self.new ≡ held self.old }
        ensures cause { HasCause StoreFault.Failed (faults self.old) (faults self.new) result };

    /// Makes the file empty, in place of one of that name. After a refusal it is as before or empty.
    fn create(&mut self, name: &str) -> Result<(), StoreFault>
        ensures ok { OnOk result (held self.new ≡ with_file (held self.old) name.now []) }
        ensures err { OnErr result ((held self.new ≡ held self.old) ⊎ (held self.new ≡ with_file (held self.old) name.now [])) }
        ensures cause { HasCause StoreFault.Failed (faults self.old) (faults self.new) result };

    /// Appends a prefix of `bytes`, at least one byte where there is one, and answers its length. After a refusal
    /// a prefix may have been appended.
    fn append(&mut self, name: &str, bytes: &[u8]) -> Result<usize, StoreFault>
        ensures fits { IfOk result (λ n. n ≤ length bytes.now) }
        ensures some { IfOk result (λ n. 0 < length bytes.now → 0 < n) }
        ensures ok { IfOk result (λ n. held self.new ≡ with_appended (held self.old) name.now (take n bytes.now)) }
        ensures err { OnErr result (AppendsSome (held self.old) (held self.new) name.now bytes.now) }
        ensures cause { HasCause StoreFault.Failed (faults self.old) (faults self.new) result };
}

/// Bytes that are put one after another.
pub trait Sink {
    /// The bytes that were put, where it tells them. A sink that tells before a call tells after it.
    ghost told: { Self → Option (List ℕ) };

    /// How often it has failed, as far as a u64 counts.
    ghost faults: { Self → ℕ };

    /// Puts a prefix of `bytes`, at least one byte where there is one, and answers its length. After a refusal a
    /// prefix may have been put.
    fn put(&mut self, bytes: &[u8]) -> Result<usize, SinkFault>
        ensures fits { IfOk result (λ n. n ≤ length bytes.now) }
        ensures some { IfOk result (λ n. 0 < length bytes.now → 0 < n) }
        ensures ok { IfOk result (λ n. told self.new ≡ with_put (told self.old) (take n bytes.now)) }
        ensures err { OnErr result ((n : ℕ) × (told self.new ≡ with_put (told self.old) (take n bytes.now))) }
        ensures cause { HasCause SinkFault.Failed (faults self.old) (faults self.new) result };
}
