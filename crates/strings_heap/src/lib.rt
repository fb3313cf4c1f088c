//! The heap `#Strings` of an image (ECMA-335 II.24.2.3), read so that each text is looked at once: where its texts end
//! and which of its places begin one is found in a single pass, and a look-up then takes a few steps, however long the text.
#![tactic(auto)]

mod characters;
mod heap;
mod lookup;
mod marks;
mod pass;
mod place;

pub use heap::StringsHeap;
