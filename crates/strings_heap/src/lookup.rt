//! What the places say of a text.
ghost use Rattle.std.specs.Prelude.{◌≡◌, ◌+◌, ◌-◌, ◌*◌, ◌/◌, ◌<◌, ◌≤◌, ◌==◌, length, take, drop, position, slice_index_or};
ghost use Rattle.std.specs.Str.{IsUtf8};
ghost use Rattle.strings_heap.specs.Places.{IsPlace, ArePlaces, first_zero as first_zero_there};
ghost use Rattle.strings_heap.specs.Texts.{begins_text};

use crate::marks::is_marked;
use crate::place::Place;
use std::str;

// The place at the start of a block, or at the heap's end.
fn place_at(places: &[Place], block: usize) -> Place
    requires { block < length places.now }
    ensures { result ≡ slice_index_or places.now (length places.now - 1 - block) result }
{
    places[places.len() - 1 - block]
}

/// Whether a text begins at the place.
pub(crate) fn is_text(bytes: &[u8], places: &[Place], at: usize) -> bool
    requires places { ArePlaces bytes.now places.now }
    requires within { at < length bytes.now }
    ensures { result ≡ begins_text (drop at bytes.now) }
{
    is_marked(place_at(places, at / 64).marks, at % 64)
}

// The bytes between two places.
fn between(bytes: &[u8], start: usize, end: usize) -> &[u8]
    requires order { start ≤ end }
    requires within { end ≤ length bytes.now }
    ensures { result.now ≡ take (end - start) (drop start bytes.now) }
{
    &bytes[start..end]
}

// Where the first zero is.
fn first_zero(bytes: &[u8]) -> Option<usize>
    ensures { result ≡ position (λ b. b == 0) bytes.now }
{
    bytes.iter().position(|byte| *byte == 0)
}

/// Where the first zero byte from the place on stands.
pub(crate) fn end_of(bytes: &[u8], places: &[Place], at: usize) -> usize
    requires places { ArePlaces bytes.now places.now }
    requires within { at < length bytes.now }
    ensures { result ≡ first_zero_there bytes.now at }
{
    let next = at / 64 + 1;
    let stop = bytes.len().min(next * 64);
    match first_zero(between(bytes, at, stop)) {
        Some(count) => at + count,
        None => place_at(places, next).zero,
    }
}

/// The text between two places.
pub(crate) fn text_between(bytes: &[u8], start: usize, end: usize) -> &str
    requires order { start ≤ end }
    requires within { end ≤ length bytes.now }
    requires utf8 { IsUtf8 (take (end - start) (drop start bytes.now)) }
    ensures { result.now ≡ take (end - start) (drop start bytes.now) }
{
    unsafe { str::from_utf8_unchecked(&bytes[start..end]) }
}
