//! The pass over the heap, from its end.
ghost use Rattle.std.specs.Prelude.{◌≡◌, ◌+◌, ◌<◌, ◌≤◌, length, IfOk};
ghost use Rattle.strings_heap.specs.Places.{IsPlace, ArePlaces};

use crate::characters::begins_text;
use crate::marks::marked;
use crate::place::Place;
use std::alloc::{AllocError, Global};

// The place at the end of the heap.
fn at_end(bytes: &[u8]) -> Place
    ensures { IsPlace bytes.now (length bytes.now) result }
{
    Place {
        marks: 0,
        zero: bytes.len(),
    }
}

// A place, from the one behind it.
fn before(bytes: &[u8], at: usize, behind: Place) -> Place
    requires within { at < length bytes.now }
    requires behind { IsPlace bytes.now (at + 1) behind }
    ensures { IsPlace bytes.now at result }
{
    let first = begins_text(bytes, at, behind.marks);
    let marks = marked(behind.marks, first);
    if bytes[at] == 0 {
        Place { marks, zero: at }
    } else {
        Place {
            marks,
            zero: behind.zero,
        }
    }
}

// The place at the start of a block, from the one at its end.
fn over_block(bytes: &[u8], start: usize, end: usize, behind: Place) -> Place
    requires order { start ≤ end }
    requires within { end ≤ length bytes.now }
    requires behind { IsPlace bytes.now end behind }
    ensures { IsPlace bytes.now start result }
{
    let mut at = end;
    let mut place = behind;
    while at > start {
        at -= 1;
        place = before(bytes, at, place);
    }
    place
}

/// The places at the blocks' ends, from the last to the first, which is the begin of the heap.
pub(crate) fn places_of(alloc: Global, bytes: &[u8]) -> Result<Vec<Place>, AllocError>
    ensures { IfOk result (λ places. ArePlaces bytes.now places.items) }
{
    let mut places = Vec::with_capacity(alloc, bytes.len() / 64 + 2)?;
    let mut at = bytes.len();
    let mut place = at_end(bytes);
    places.push(place)?;
    while at > 0 {
        let start = (at - 1) / 64 * 64;
        place = over_block(bytes, start, at, place);
        places.push(place)?;
        at = start;
    }
    Ok(places)
}
