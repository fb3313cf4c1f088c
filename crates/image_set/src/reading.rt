//! One image: read, and taken by the types that it states.

ghost use Rattle.std.specs.Prelude.{◌≡◌, ◌≤◌, ◌<◌, IfErr, string_bytes};
ghost use Rattle.wr_outside.specs.Cause.{Rose};
ghost use Rattle.image_set.specs.Stops.{IsReadFault};
ghost use Rattle.image_set.specs.Turns.{Reads, Turn};

use crate::stop::ImageStop;
use ranked::Stop;
use std::alloc::Global;
use winmd_read::types_of;
use wr_base::Types;
use wr_outside::{ReadRefusal, Store, read_whole};

/// How many images a call may have.
const MOST_IMAGES: usize = 256;
/// How many bytes an image may have.
const IMAGE_LIMIT: u64 = 268_435_456;

// The types that the bytes of an image state.
fn types_in(alloc: Global, name: String, bytes: &[u8]) -> Result<Types, ImageStop>
    ensures { Reads bytes.now (string_bytes name) result }
{
    match types_of(alloc, bytes) {
        Ok(types) => Ok(types),
        Err(Stop::Refused(fault)) => Err(ImageStop::Faulty(name, fault)),
        Err(Stop::Memory) => Err(ImageStop::Memory),
    }
}

fn take_image<S: Store>(
    alloc: Global,
    store: &mut S,
    name: String,
    number: usize,
) -> Result<Types, ImageStop>
    requires { number < 256 }
    ensures turn { Turn (S.held store.old) number (string_bytes name) result }
    ensures kept { S.held store.new ≡ S.held store.old }
    ensures later { S.faults store.old ≤ S.faults store.new }
    ensures rose { IfErr result (λ stop. IsReadFault stop → Rose (S.faults store.old) (S.faults store.new)) }
{
    let _ = number;
    let bytes = match read_whole(alloc, store, name.as_str(), IMAGE_LIMIT) {
        Ok(bytes) => bytes,
        Err(ReadRefusal::Missing) => return Err(ImageStop::Missing(name)),
        Err(ReadRefusal::TooLong(_)) => return Err(ImageStop::TooLong(name)),
        Err(ReadRefusal::Fault) => return Err(ImageStop::ReadFault(name)),
        Err(ReadRefusal::Memory) => return Err(ImageStop::Memory),
    };
    types_in(alloc, name, &bytes)
}

// The 257th image isn't asked for.
fn counted_image<S: Store>(
    alloc: Global,
    store: &mut S,
    name: String,
    number: usize,
) -> Result<Types, ImageStop>
    ensures turn { Turn (S.held store.old) number (string_bytes name) result }
    ensures kept { S.held store.new ≡ S.held store.old }
    ensures later { S.faults store.old ≤ S.faults store.new }
    ensures rose { IfErr result (λ stop. IsReadFault stop → Rose (S.faults store.old) (S.faults store.new)) }
{
    if number >= MOST_IMAGES {
        return Err(ImageStop::TooMany(name));
    }
    take_image(alloc, store, name, number)
}

/// The types of the image of this number, from 0, and name; or why there are none.
pub(crate) fn next_image<S: Store>(
    alloc: Global,
    store: &mut S,
    name: &str,
    number: usize,
) -> Result<Types, ImageStop>
    ensures turn { Turn (S.held store.old) number name.now result }
    ensures kept { S.held store.new ≡ S.held store.old }
    ensures later { S.faults store.old ≤ S.faults store.new }
    ensures rose { IfErr result (λ stop. IsReadFault stop → Rose (S.faults store.old) (S.faults store.new)) }
{
    match String::from_str(alloc, name) {
        Ok(name) => counted_image(alloc, store, name, number),
        Err(_) => Err(ImageStop::Memory),
    }
}
