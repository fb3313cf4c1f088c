//! `#Strings`: texts that each end in a zero byte (ECMA-335 II.24.2.3).
ghost use Rattle.std.specs.Prelude.{◌≡◌, ◌==◌, ◌+◌, ◌<◌, ◌≤◌, ◌^◌, ◌-◌, ◌↔◌, ℕ, [], None, Some, Ok, Err, length, drop, OnErr, IfOk, MatchOption, position};
ghost use Rattle.md_schema.specs.Given.{Gives};
ghost use Rattle.md_heaps.specs.Heaps.{index_of, with_entry, length_with, Keeps, EachStands};
ghost use Rattle.md_heaps.specs.Reading as reading;
ghost use Rattle.md_heaps.specs.Texts.{TextAt, HasNoZero, text_bytes, first_text};

use crate::faults::fault_at;
use crate::parts::tail;
use crate::store::{HeapFull, Store};
use md_schema::{ImageFault, ImageKind};
use ranked::{Memory, Stop};
use std::alloc::Global;
use std::marker::Model;
use std::str;

/// The texts of an image that is being written. The empty text is at 0.
#[derive(Drop)]
pub struct TextHeap {
    store: Store,
}

impl Model for TextHeap {
    ghost use Rattle.md_heaps.specs.Heaps.{Heap, heap_code, EachStands};
    ghost use Rattle.md_heaps.specs.Texts.{TextAt};

    ghost Value = { Heap };

    ghost coded = { heap_code };

    ghost view = { λ h. h.store };

    ghost invariant = { λ h. EachStands TextAt h.store };
}

impl TextHeap {
    /// A heap with the empty text.
    pub fn new(alloc: Global) -> Result<TextHeap, Memory>
        ensures first { IfOk result (λ heap. heap ≡ first_text) }
        ensures empty { IfOk result (λ heap. index_of heap [] ≡ Some 0) }
    {
        let mut store = Store::new(alloc);
        store.add(&[], &[], &[0], 0)?;
        Ok(TextHeap { store })
    }

    /// The bytes so far. They end with the last text, without padding.
    pub fn bytes(&self) -> &[u8]
        ensures bytes { result.now ≡ self.now.bytes }
        ensures small { length self.now.bytes < 2 ^ 29 }
        ensures standing { EachStands TextAt self.now }
    {
        self.store.bytes()
    }

    /// The index of a text, which goes to the end of the heap if it isn't there yet. A heap has at most 2^29 - 1 bytes.
    pub fn intern(&mut self, text: &[u8]) -> Result<u32, Stop<HeapFull>>
        requires { HasNoZero text.now }
        ensures known { (at : ℕ) → index_of self.old text.now ≡ Some at → (result ≡ Ok at) × (self.new ≡ self.old) }
        ensures added { index_of self.old text.now ≡ None → IfOk result (λ at. (at ≡ length self.old.bytes) × (self.new ≡ with_entry self.old text.now (text_bytes text.now) at)) }
        ensures full { (why : HeapFull) → (result ≡ Err (Stop.Refused why)) ↔ (index_of self.old text.now ≡ None) × (2 ^ 29 - 1 < why.length) × (why.length ≡ length_with self.old (text_bytes text.now)) }
        ensures unchanged { OnErr result (self.new ≡ self.old) }
        ensures found { IfOk result (λ at. index_of self.new text.now ≡ Some at) }
        ensures stands { IfOk result (λ at. TextAt self.new.bytes at text.now) }
        ensures standing { EachStands TextAt self.new }
        ensures keeps { Keeps self.old self.new }
    {
        if let Some(at) = self.store.find(text) {
            return Ok(at);
        }
        match self.store.room(text.len() as u64 + 1) {
            Ok(at) => {
                self.store.add(&[], text, &[0], at)?;
                Ok(at)
            }
            Err(full) => Err(Stop::Refused(full)),
        }
    }
}

// Where the first zero is.
fn first_zero(bytes: &[u8]) -> Option<usize>
    ensures { result ≡ position (λ b. b == 0) bytes.now }
{
    bytes.iter().position(|byte| *byte == 0)
}

// The bytes from the place to the first zero, if there is one.
fn before_zero(heap: &[u8], start: usize) -> Option<&[u8]>
    requires { start ≤ length heap.now }
    ensures { MatchOption result (HasNoZero (drop start heap.now)) (λ text. TextAt heap.now start text.now) }
{
    match first_zero(tail(heap, start)) {
        Some(count) => Some(&heap[start..start + count]),
        None => None,
    }
}

/// The text at an index of `#Strings`, without the zero that ends it (II.24.2.3).
pub fn text_at(heap: &[u8], at: u32) -> Result<&[u8], ImageFault>
    ensures exact { Gives (λ text. text.now) result (reading.text_at heap.now at) }
{
    let start = at as usize;
    if start >= heap.len() {
        return Err(fault_at(ImageKind::HeapRange, 0));
    }
    let Some(text) = before_zero(heap, start) else {
        return Err(fault_at(ImageKind::HeapText, at));
    };
    match str::from_utf8(text) {
        Ok(_) => Ok(text),
        Err(_) => Err(fault_at(ImageKind::HeapText, at)),
    }
}
