//! Texts and blobs, interned.

ghost use Rattle.std.specs.Prelude.{◌≡◌, ◌<◌, ◌^◌, Ok, Some, length, IfOk};
ghost use Rattle.md_heaps.specs.Blobs.{BlobHere, blob_bytes};
ghost use Rattle.md_heaps.specs.Heaps.{index_of, EachStands, Keeps};
ghost use Rattle.md_heaps.specs.Reading.{text_at, blob_at};
ghost use Rattle.md_heaps.specs.Texts.{text_bytes};
ghost use Rattle.row_writer.specs.Lines.{is_plain};
ghost use Rattle.row_writer.specs.Tight.{Grew};

use md_heaps::{BlobHeap, TextHeap};
use ranked::Memory;
use std::alloc::AllocError;

fn tests_plain(text: &[u8]) -> bool
    ensures { result ≡ is_plain text.now }
{
    text.iter().all(|b| *b >= 1 && *b <= 127)
}

/// The index of a text. A text that isn't ASCII without zero, and a heap that is full, are want of memory.
#[tactic(auto, using(md_heaps::proofs::HeapLaws::keeps_same))]
pub fn intern_text(texts: &mut TextHeap, text: &[u8]) -> Result<u32, Memory>
    ensures read { IfOk result (λ at. text_at texts.new.bytes at ≡ Ok text.now) }
    ensures known { IfOk result (λ at. index_of texts.new text.now ≡ Some at) }
    ensures grew { IfOk result (λ at. Grew text_bytes (λ content. content ≡ text.now) texts.old texts.new) }
    ensures keeps { Keeps texts.old texts.new }
{
    if !tests_plain(text) {
        return Err(AllocError);
    }
    match texts.intern(text) {
        Ok(at) => Ok(at),
        Err(_) => Err(AllocError),
    }
}

/// The longest blob that the heap takes.
const LONGEST_BLOB: usize = 0x1FFF_FFFB;

/// The index of a blob. A blob that is too long, and a heap that is full, are want of memory.
#[tactic(auto, using(md_heaps::proofs::HeapLaws::keeps_same))]
pub fn intern_blob(blobs: &mut BlobHeap, blob: &[u8]) -> Result<u32, Memory>
    requires standing { EachStands BlobHere blobs.old }
    ensures standing { EachStands BlobHere blobs.new }
    ensures small { IfOk result (λ at. length blob.now < 2 ^ 29) }
    ensures read { IfOk result (λ at. blob_at blobs.new.bytes at ≡ Ok blob.now) }
    ensures known { IfOk result (λ at. index_of blobs.new blob.now ≡ Some at) }
    ensures grew { IfOk result (λ at. Grew blob_bytes (λ content. content ≡ blob.now) blobs.old blobs.new) }
    ensures keeps { Keeps blobs.old blobs.new }
{
    if blob.len() > LONGEST_BLOB {
        return Err(AllocError);
    }
    match blobs.intern(blob) {
        Ok(at) => Ok(at),
        Err(_) => Err(AllocError),
    }
}
