//! What stands in a heap is what is read there.

ghost use Rattle.std.specs.Prelude.{◌≡◌, ◌<◌, ◌^◌, ◌++◌, ℕ, List, Some, Ok, length};
ghost use Rattle.std.specs.Str.{IsUtf8};
ghost use Rattle.md_heaps.specs.Blobs.{BlobAt, BlobHere};
ghost use Rattle.md_heaps.specs.Heaps.{Heap, EachStands, Keeps, index_of};
ghost use Rattle.md_heaps.specs.Reading.{text_at, blob_at};
ghost use Rattle.md_heaps.specs.Texts.{TextAt};

/// A text is read at an index where and only where the bytes there, up to the first zero, are it, and are UTF-8 (II.24.2.3).
pub fn text_is_read()
    ensures read { (heap : List ℕ) (at : ℕ) (text : List ℕ) → TextAt heap at text → IsUtf8 text → text_at heap at ≡ Ok text }
    ensures stands { (heap : List ℕ) (at : ℕ) (text : List ℕ) → text_at heap at ≡ Ok text → TextAt heap at text × IsUtf8 text }
{}

/// A blob is read at an index where and only where it stands behind its length, in any form of that (II.24.2.4).
pub fn blob_is_read()
    ensures read { (heap : List ℕ) (at : ℕ) (blob : List ℕ) → BlobAt heap at blob → blob_at heap at ≡ Ok blob }
    ensures stands { (heap : List ℕ) (at : ℕ) (blob : List ℕ) → blob_at heap at ≡ Ok blob → BlobAt heap at blob }
{}

/// What was interned is read at its index, whatever stands behind the heap, as its padding.
pub fn interned_is_read()
    ensures texts { (heap : Heap) (more : List ℕ) (at : ℕ) (text : List ℕ) → EachStands TextAt heap → index_of heap text ≡ Some at → IsUtf8 text → text_at (heap.bytes ++ more) at ≡ Ok text }
    ensures blobs { (heap : Heap) (more : List ℕ) (at : ℕ) (blob : List ℕ) → EachStands BlobHere heap → index_of heap blob ≡ Some at → length heap.bytes < 2 ^ 29 → blob_at (heap.bytes ++ more) at ≡ Ok blob }
{}

/// A heap keeps itself, and what one keeps that keeps another, the first keeps.
pub fn heaps_keep()
    ensures same { (heap : Heap) → Keeps heap heap }
    ensures further { (a b c : Heap) → Keeps a b → Keeps b c → Keeps a c }
{}
