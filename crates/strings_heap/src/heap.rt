//! The heap of texts of an image that was read.
ghost use Rattle.std.specs.Prelude.{◌≡◌, IfOk, length, ◌<◌};
ghost use Rattle.md_heaps.specs.Reading.{text_at};
ghost use Rattle.md_schema.specs.Faults.{fault_at as fault_there};
ghost use Rattle.md_schema.specs.Given.{Gives};
ghost use Rattle.strings_heap.specs.Places.{ArePlaces};

use crate::lookup::{end_of, is_text, text_between};
use crate::pass::places_of;
use crate::place::Place;
use md_schema::{ImageFault, ImageKind};
use std::alloc::{AllocError, Global};
use std::marker::Model;

/// The heap `#Strings` of an image. It is seen as the list of its bytes.
#[derive(Drop)]
pub struct StringsHeap<'a> {
    bytes: &'a [u8],
    places: Vec<Place>,
}

impl<'a> Model for StringsHeap<'a> {
    ghost use Rattle.std.specs.Prelude.{ℕ, List};
    ghost use Rattle.strings_heap.specs.Places.{ArePlaces};

    ghost Value = { List ℕ };

    ghost view = { λ h. h.bytes.now };

    ghost invariant = { λ h. ArePlaces h.bytes.now h.places.items };
}

// A fault at an offset in the heap.
fn fault_at(kind: ImageKind, offset: u32) -> ImageFault
    ensures { result ≡ fault_there kind offset }
{
    ImageFault {
        kind,
        offset: offset as u64,
    }
}

impl<'a> StringsHeap<'a> {
    /// The heap of these bytes. It takes one pass over them, and a quarter of their size in memory.
    pub fn new(alloc: Global, bytes: &'a [u8]) -> Result<StringsHeap<'a>, AllocError>
        ensures bytes { IfOk result (λ heap. heap ≡ bytes.now) }
    {
        let places = places_of(alloc, bytes)?;
        Ok(StringsHeap { bytes, places })
    }

    /// The text at an index, without the zero that ends it (II.24.2.3). It takes at most 64 steps.
    pub fn at(&self, index: u32) -> Result<&'a str, ImageFault>
        ensures exact { Gives (λ text. text.now) result (text_at self.now index) }
    {
        let start = index as usize;
        if start >= self.bytes.len() {
            return Err(fault_at(ImageKind::HeapRange, 0));
        }
        if !is_text(self.bytes, &self.places, start) {
            return Err(fault_at(ImageKind::HeapText, index));
        }
        let end = end_of(self.bytes, &self.places, start);
        Ok(text_between(self.bytes, start, end))
    }
}
