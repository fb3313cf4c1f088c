//! `#GUID`: GUIDs of 16 bytes, counted from 1 (ECMA-335 II.24.2.5).
ghost use Rattle.std.specs.Prelude.{◌≡◌, ◌+◌, ◌*◌, ◌/◌, ◌<◌, ◌≤◌, ◌^◌, ◌-◌, ◌↔◌, ℕ, None, Some, Ok, Err, length, OnErr, IfOk};
ghost use Rattle.md_heaps.specs.Guids.{GuidAt, guid_number, no_guid};
ghost use Rattle.md_heaps.specs.Heaps.{index_of, with_entry, length_with, EachStands, Keeps};
ghost use Rattle.md_heaps.specs.Reading as reading;

use crate::faults::fault_at;
use crate::store::{HeapFull, Store};
use byteorder::{BigEndian, ByteOrder, LittleEndian};
use md_schema::{ImageFault, ImageKind};
use ranked::{Memory, Stop};
use std::alloc::Global;
use std::marker::Model;

/// The GUIDs of an image that is being written.
#[derive(Drop)]
pub struct GuidHeap {
    store: Store,
}

impl Model for GuidHeap {
    ghost use Rattle.std.specs.Prelude.{◌≡◌, ◌%◌, length};
    ghost use Rattle.md_heaps.specs.Heaps.{Heap, heap_code, EachStands};
    ghost use Rattle.md_heaps.specs.Guids.{GuidAt};

    ghost Value = { Heap };

    ghost coded = { heap_code };

    ghost view = { λ h. h.store };

    ghost invariant = { λ h. (length h.store.bytes % 16 ≡ 0) × EachStands GuidAt h.store };
}

impl GuidHeap {
    /// A heap without a GUID.
    pub fn new(alloc: Global) -> GuidHeap
        ensures { result ≡ no_guid }
    {
        GuidHeap {
            store: Store::new(alloc),
        }
    }

    /// The bytes so far.
    pub fn bytes(&self) -> &[u8]
        ensures bytes { result.now ≡ self.now.bytes }
        ensures small { length self.now.bytes < 2 ^ 29 }
        ensures standing { EachStands GuidAt self.now }
    {
        self.store.bytes()
    }

    /// The index of a GUID's bytes, which go to the end of the heap if they aren't there yet. A heap has at most 2^29 - 1 bytes.
    pub fn intern(&mut self, guid: &[u8]) -> Result<u32, Stop<HeapFull>>
        requires { length guid.now ≡ 16 }
        ensures known { (index : ℕ) → index_of self.old guid.now ≡ Some index → (result ≡ Ok index) × (self.new ≡ self.old) }
        ensures added { index_of self.old guid.now ≡ None → IfOk result (λ index. (index ≡ length self.old.bytes / 16 + 1) × (self.new ≡ with_entry self.old guid.now guid.now index)) }
        ensures full { (why : HeapFull) → (result ≡ Err (Stop.Refused why)) ↔ (index_of self.old guid.now ≡ None) × (2 ^ 29 - 1 < why.length) × (why.length ≡ length_with self.old guid.now) }
        ensures unchanged { OnErr result (self.new ≡ self.old) }
        ensures found { IfOk result (λ index. index_of self.new guid.now ≡ Some index) }
        ensures stands { IfOk result (λ index. GuidAt self.new.bytes index guid.now) }
        ensures standing { EachStands GuidAt self.new }
        ensures keeps { Keeps self.old self.new }
    {
        if let Some(index) = self.store.find(guid) {
            return Ok(index);
        }
        match self.store.room(16) {
            Ok(end) => {
                let index = end / 16 + 1;
                self.store.add(&[], guid, &[], index)?;
                Ok(index)
            }
            Err(full) => Err(Stop::Refused(full)),
        }
    }
}

// The number of a GUID, whose first three parts have their lowest byte first.
fn number_of(guid: &[u8]) -> u128
    requires { length guid.now ≡ 16 }
    ensures { result ≡ guid_number guid.now }
{
    let first = LittleEndian::read_u32(guid) as u128;
    let second = LittleEndian::read_u16(&guid[4..]) as u128;
    let third = LittleEndian::read_u16(&guid[6..]) as u128;
    let fourth = BigEndian::read_u64(&guid[8..]) as u128;
    first * (1 << 96) + second * (1 << 80) + third * (1 << 64) + fourth
}

/// The GUID at an index of `#GUID`, as a number (RFC 9562). The first index is 1.
pub fn guid_at(heap: &[u8], index: u32) -> Result<u128, ImageFault>
    ensures exact { result ≡ reading.guid_at heap.now index }
{
    if index == 0 || heap.len() < 16 * index as usize {
        return Err(fault_at(ImageKind::HeapRange, 0));
    }
    let start = 16 * (index as usize - 1);
    Ok(number_of(&heap[start..start + 16]))
}
