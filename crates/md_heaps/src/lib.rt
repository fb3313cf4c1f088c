//! The heaps of ECMA-335 metadata: `#Strings`, `#Blob` and `#GUID` (II.24.2.3 to II.24.2.5), to which entries are interned and
//! from which they are read, and the compressed integers in front of blobs (II.23.2).
//!
//! What was interned stands at its index, and an equal entry gets the same index. The readers are exact on all bytes.
#![tactic(auto)]

mod blobs;
mod content;
mod faults;
mod guids;
mod index;
mod integers;
mod laws;
mod parts;
mod store;
mod texts;

pub use blobs::{BlobHeap, blob_at};
pub use guids::{GuidHeap, guid_at};
pub use integers::{compressed, compressed_again, put_compressed};
pub use laws::{blob_is_read, heaps_keep, interned_is_read, text_is_read};
pub use store::HeapFull;
#[doc(hidden)]
pub use store::Store;
pub use texts::{TextHeap, text_at};
