//! The bytes of a heap, with the index of its entries.
ghost use Rattle.std.specs.Prelude.{◌≡◌, ◌+◌, ◌<◌, ◌≤◌, ◌^◌, ◌-◌, ◌↔◌, ◌++◌, [], None, length, OnOk, OnErr, IfOk, IfErr};
ghost use Rattle.std.specs.FinMap.{empty};
ghost use Rattle.md_heaps.specs.Heaps.{Heap, index_of, with_entry};

use crate::index::Index;
use ranked::{Memory, Stop};
use std::alloc::Global;
use std::marker::Model;

/// A heap would pass 2^29 - 1 bytes, and with them what a compressed integer can say: the length that it would have.
#[derive(Clone, Copy, Debug, PartialEq, Eq)]
pub struct HeapFull {
    pub length: u64,
}

const MOST_BYTES: u64 = 0x1FFF_FFFF;

/// The bytes of a heap, and the index from content to the number by which tables name it.
#[derive(Drop)]
pub struct Store {
    bytes: Vec<u8>,
    index: Index,
}

impl Model for Store {
    ghost use Rattle.std.specs.Prelude.{◌<◌, ◌^◌, length};
    ghost use Rattle.md_heaps.specs.Heaps.{Heap, heap_code};

    ghost Value = { Heap };

    ghost coded = { heap_code };

    ghost view = { λ s. record { bytes = s.bytes.items; entries = s.index } };

    ghost invariant = { λ s. length s.bytes.items < 2 ^ 29 };
}

impl Store {
    /// A store without bytes.
    pub(crate) fn new(alloc: Global) -> Store
        ensures bytes { result.bytes ≡ [] }
        ensures entries { result.entries ≡ empty }
    {
        Store {
            bytes: Vec::new(alloc),
            index: Index::new(alloc),
        }
    }

    /// The bytes so far.
    pub(crate) fn bytes(&self) -> &[u8]
        ensures bytes { result.now ≡ self.now.bytes }
        ensures small { length self.now.bytes < 2 ^ 29 }
    {
        self.bytes.as_slice()
    }

    /// The index of content that is there.
    pub(crate) fn find(&self, content: &[u8]) -> Option<u32>
        ensures { result ≡ index_of self.now content.now }
    {
        self.index.find(content)
    }

    /// The length so far, unless so many more bytes would be too many.
    pub(crate) fn room(&self, more: u64) -> Result<u32, HeapFull>
        requires { more ≤ 2 ^ 63 + 8 }
        ensures length { IfOk result (λ length-so-far. length-so-far ≡ length self.now.bytes) }
        ensures fits { OnOk result (length self.now.bytes + more < 2 ^ 29) }
        ensures full { IfErr result (λ full. (full.length ≡ length self.now.bytes + more) × (2 ^ 29 - 1 < full.length)) }
    {
        let so_far = self.bytes.len();
        let length = so_far as u64 + more;
        if length > MOST_BYTES {
            return Err(HeapFull { length });
        }
        Ok(so_far as u32)
    }

    /// Puts new content at the end, between what its heap writes before and behind it.
    pub(crate) fn add(
        &mut self,
        before: &[u8],
        content: &[u8],
        behind: &[u8],
        index: u32,
    ) -> Result<(), Memory>
        requires absent { index_of self.old content.now ≡ None }
        requires room { length self.old.bytes + length (before.now ++ content.now ++ behind.now) < 2 ^ 29 }
        ensures added { OnOk result (self.new ≡ with_entry self.old content.now (before.now ++ content.now ++ behind.now) index) }
        ensures unchanged { OnErr result (self.new ≡ self.old) }
    {
        let alloc = *self.bytes.allocator();
        self.bytes
            .reserve(before.len() + content.len() + behind.len())?;
        self.index.add(Vec::from_slice(alloc, content)?, index)?;
        self.bytes.extend_from_slice(before).unwrap();
        self.bytes.extend_from_slice(content).unwrap();
        self.bytes.extend_from_slice(behind).unwrap();
        Ok(())
    }
}
