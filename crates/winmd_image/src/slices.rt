//! The five streams of an image, taken out of it.

ghost use Rattle.std.specs.Prelude.{◌≡◌};
ghost use Rattle.md_schema.specs.Given.{Gives};
ghost use Rattle.winmd_image.specs.Slices.{slice, unwrapped};
ghost use Rattle.winmd_image.specs.Seen.{range_seen};
ghost use Rattle.winmd_image.specs.Taken.{slice_seen, slices_seen};

use crate::fields::part;
use crate::pe::Range;
use crate::root::ranges_of;
use md_schema::ImageFault;

/// A stream: its bytes, and where they stand in the image.
#[derive(Clone, Copy, Debug)]
pub struct Stream<'a> {
    pub offset: u64,
    pub bytes: &'a [u8],
}

/// The streams `#~`, `#Strings`, `#US`, `#GUID` and `#Blob` of an image. Where there is no `#US`, it has no bytes and its offset is 0.
#[derive(Clone, Copy, Debug)]
pub struct Streams<'a> {
    pub tables: Stream<'a>,
    pub texts: Stream<'a>,
    pub users: Stream<'a>,
    pub guids: Stream<'a>,
    pub blobs: Stream<'a>,
}

fn stream_in(image: &[u8], range: Range) -> Stream<'_>
    ensures { slice_seen result ≡ slice image.now (range_seen range) }
{
    Stream {
        offset: range.offset,
        bytes: part(image, range.offset, range.size),
    }
}

/// The five streams of an image, or its first fault (ECMA-335 II.25, II.24.2). It copies nothing.
pub fn unwrap(image: &[u8]) -> Result<Streams<'_>, ImageFault>
    ensures { Gives (λ x. slices_seen x) result (unwrapped image.now) }
{
    let ranges = ranges_of(image)?;
    Ok(Streams {
        tables: stream_in(image, ranges.tables),
        texts: stream_in(image, ranges.texts),
        users: stream_in(image, ranges.users),
        guids: stream_in(image, ranges.guids),
        blobs: stream_in(image, ranges.blobs),
    })
}
