//! All images, in their order.

ghost use Rattle.std.specs.Prelude.{◌≡◌, ◌≤◌, IfOk, IfErr, map, string_bytes};
ghost use Rattle.wr_outside.specs.Cause.{Rose};
ghost use Rattle.image_set.specs.Images.{AreTaken};
ghost use Rattle.image_set.specs.Stops.{StopIs, IsReadFault};

use crate::reading::next_image;
use crate::stop::ImageStop;
use std::alloc::Global;
use wr_base::Types;
use wr_outside::Store;

/// The types of each image that the words name, in the order of the words; or the first event. A word that stands twice is read twice.
pub fn images<S: Store>(
    alloc: Global,
    store: &mut S,
    words: &[String],
) -> Result<Vec<Types>, ImageStop>
    // Each word is that of an image, and these are its types.
    ensures ok { IfOk result (λ sets. AreTaken (S.held store.old) (map string_bytes words.now) sets.items) }
    // A refusal is the first event; a read that failed is one before which no event stands.
    ensures stopped { IfErr result (StopIs (S.held store.old) (map string_bytes words.now)) }
    ensures kept { S.held store.new ≡ S.held store.old }
    ensures later { S.faults store.old ≤ S.faults store.new }
    // A read failed only where the store's count rose.
    ensures rose { IfErr result (λ stop. IsReadFault stop → Rose (S.faults store.old) (S.faults store.new)) }
{
    let mut sets = Vec::new(alloc);
    let mut rest = words;
    'each: while let Some((word, after)) = rest.split_first() {
        let types = next_image(alloc, store, word.as_str(), sets.len())?;
        sets.push(types)?;
        rest = after;
    }
    Ok(sets)
}
