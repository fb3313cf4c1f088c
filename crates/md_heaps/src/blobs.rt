//! `#Blob`: blobs behind their lengths (ECMA-335 II.24.2.4).
ghost use Rattle.std.specs.Prelude.{◌≡◌, ◌+◌, ◌<◌, ◌≤◌, ◌^◌, ◌-◌, ◌↔◌, ℕ, [], None, Some, Ok, Err, length, OnOk, OnErr, IfOk};
ghost use Rattle.md_schema.specs.Given.{Gives};
ghost use Rattle.md_heaps.specs.Blobs.{BlobHere, blob_bytes, first_blob};
ghost use Rattle.md_heaps.specs.Heaps.{index_of, with_entry, length_with, EachStands, Keeps};
ghost use Rattle.md_heaps.specs.Integers.{shortest};
ghost use Rattle.md_heaps.specs.Reading as reading;

use crate::faults::fault_at;
use crate::integers::{compressed, put_compressed};
use crate::parts::{part, tail};
use crate::store::{HeapFull, Store};
use md_schema::{ImageFault, ImageKind};
use ranked::{Memory, Stop};
use std::alloc::Global;
use std::marker::Model;

/// The blobs of an image that is being written. The empty blob is at 0.
#[derive(Drop)]
pub struct BlobHeap {
    store: Store,
    alloc: Global,
}

impl Model for BlobHeap {
    ghost use Rattle.md_heaps.specs.Heaps.{Heap, heap_code, EachStands};
    ghost use Rattle.md_heaps.specs.Blobs.{BlobHere};

    ghost Value = { Heap };

    ghost coded = { heap_code };

    ghost view = { λ h. h.store };

    ghost invariant = { λ h. EachStands BlobHere h.store };
}

impl BlobHeap {
    /// A heap with the empty blob.
    pub fn new(alloc: Global) -> Result<BlobHeap, Memory>
        ensures first { IfOk result (λ heap. heap ≡ first_blob) }
        ensures empty { IfOk result (λ heap. index_of heap [] ≡ Some 0) }
    {
        let mut store = Store::new(alloc);
        store.add(&[0], &[], &[], 0)?;
        Ok(BlobHeap { store, alloc })
    }

    /// The bytes so far. They end with the last blob, without padding.
    pub fn bytes(&self) -> &[u8]
        ensures bytes { result.now ≡ self.now.bytes }
        ensures small { length self.now.bytes < 2 ^ 29 }
        ensures standing { EachStands BlobHere self.now }
    {
        self.store.bytes()
    }

    /// The index of a blob, which goes to the end of the heap if it isn't there yet. A heap has at most 2^29 - 1 bytes.
    pub fn intern(&mut self, blob: &[u8]) -> Result<u32, Stop<HeapFull>>
        requires { length blob.now ≤ 2 ^ 29 - 5 }
        ensures known { (at : ℕ) → index_of self.old blob.now ≡ Some at → (result ≡ Ok at) × (self.new ≡ self.old) }
        ensures added { index_of self.old blob.now ≡ None → IfOk result (λ at. (at ≡ length self.old.bytes) × (self.new ≡ with_entry self.old blob.now (blob_bytes blob.now) at)) }
        ensures full { (why : HeapFull) → (result ≡ Err (Stop.Refused why)) ↔ (index_of self.old blob.now ≡ None) × (2 ^ 29 - 1 < why.length) × (why.length ≡ length_with self.old (blob_bytes blob.now)) }
        ensures unchanged { OnErr result (self.new ≡ self.old) }
        ensures found { IfOk result (λ at. index_of self.new blob.now ≡ Some at) }
        ensures stands { IfOk result (λ at. BlobHere self.new.bytes at blob.now) }
        ensures standing { EachStands BlobHere self.new }
        ensures keeps { Keeps self.old self.new }
    {
        if let Some(at) = self.store.find(blob) {
            return Ok(at);
        }
        match self.store.room(written_length(blob.len() as u32)) {
            Ok(at) => {
                add_blob(&mut self.store, self.alloc, blob, at)?;
                Ok(at)
            }
            Err(full) => Err(Stop::Refused(full)),
        }
    }
}

// Puts a new blob at the end, behind its length.
fn add_blob(store: &mut Store, alloc: Global, blob: &[u8], at: u32) -> Result<(), Memory>
    requires absent { index_of store.old blob.now ≡ None }
    requires room { length store.old.bytes + length (blob_bytes blob.now) < 2 ^ 29 }
    ensures added { OnOk result (store.new ≡ with_entry store.old blob.now (blob_bytes blob.now) at) }
    ensures unchanged { OnErr result (store.new ≡ store.old) }
{
    let mut lead = Vec::new(alloc);
    put_compressed(&mut lead, blob.len() as u32)?;
    store.add(lead.as_slice(), blob, &[], at)
}

// How many bytes a blob takes, with its length in front.
fn written_length(count: u32) -> u64
    ensures { result ≡ length (shortest count) + count }
{
    let lead = if count < 0x80 {
        1
    } else if count < 0x4000 {
        2
    } else {
        4
    };
    lead + count as u64
}

// The compressed integer at an index, and how many bytes it takes.
fn compressed_at(bytes: &[u8], at: u32) -> Result<(u32, u32), ImageFault>
    requires { at < length bytes.now }
    ensures exact { result ≡ reading.compressed_at bytes.now at }
    ensures within { IfOk result (λ found. at + found.1 ≤ length bytes.now) }
{
    match compressed(tail(bytes, at as usize)) {
        Ok(found) => Ok(found),
        Err(fault) => Err(fault_at(fault.kind, at)),
    }
}

/// The blob at an index of `#Blob`, without its length (II.24.2.4). The length may have any of its forms.
pub fn blob_at(heap: &[u8], at: u32) -> Result<&[u8], ImageFault>
    ensures exact { Gives (λ blob. blob.now) result (reading.blob_at heap.now at) }
{
    if at as usize >= heap.len() {
        return Err(fault_at(ImageKind::HeapRange, 0));
    }
    match compressed_at(heap, at) {
        Err(fault) => Err(fault),
        Ok((count, size)) => match part(heap, at as usize + size as usize, count as usize) {
            Some(blob) => Ok(blob),
            None => Err(fault_at(ImageKind::BadLength, at)),
        },
    }
}
