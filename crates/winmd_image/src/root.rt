//! The root of the metadata and the headers of its streams (ECMA-335 II.24.2.1, II.24.2.2): where each stream stands.

ghost use Rattle.std.specs.Prelude.{◌≡◌, ◌<◌, ◌≤◌, ◌^◌, bytes_eq, codes, IfOk, length};
ghost use Rattle.md_schema.specs.Given.{Gives};
ghost use Rattle.winmd_image.specs.Found.{all_found};
ghost use Rattle.winmd_image.specs.Noting as noting;
ghost use Rattle.winmd_image.specs.Root as root_as;
ghost use Rattle.winmd_image.specs.Seen.{range_seen, stream_seen, maybe_seen, found_seen, ranges_seen};

use crate::faults::{checked, fault};
use crate::fields::{begins, field, part, to_zero};
use crate::pe::{Range, root_of};
use md_schema::{ImageFault, ImageKind};

/// A stream header: the name, and where the stream stands in the image.
#[derive(Clone, Copy, Debug)]
pub struct Stream<'a> {
    pub name: &'a [u8],
    pub range: Range,
}

/// The first stream of each name, and whether one is named `#-`.
#[derive(Clone, Copy, Debug)]
pub struct Found {
    pub tables: Option<Range>,
    pub texts: Option<Range>,
    pub users: Option<Range>,
    pub guids: Option<Range>,
    pub blobs: Option<Range>,
    pub uncompressed: bool,
}

/// Where the five streams stand.
#[derive(Clone, Copy, Debug)]
pub struct Ranges {
    pub tables: Range,
    pub texts: Range,
    pub users: Range,
    pub guids: Range,
    pub blobs: Range,
}

/// The stream header at an offset.
fn header_at<'a>(image: &'a [u8], metadata: &Range, at: u64) -> Result<Stream<'a>, ImageFault>
    requires root { metadata.now.offset < 2 ^ 33 }
    requires at { at < 2 ^ 60 }
    ensures exact { Gives (λ x. stream_seen x) result (root_as.header_at image.now (range_seen metadata.now) at) }
    ensures short { IfOk result (λ x. length x.name.now ≤ 32) }
{
    let offset = field(image, ImageKind::BadStream, at, 4)?;
    let size = field(image, ImageKind::BadStream, at + 4, 4)?;
    checked(offset + size <= metadata.size, ImageKind::BadStream, at)?;
    Ok(Stream {
        name: to_zero(part(image, at + 8, 32)),
        range: Range {
            offset: metadata.offset + offset,
            size,
        },
    })
}

/// The range that was found, or else this one where it is that of the stream.
fn first_of(found: Option<Range>, is: bool, range: Range) -> Option<Range>
    ensures { maybe_seen result ≡ noting.first_of (maybe_seen found) is (range_seen range) }
{
    match found {
        Some(before) => Some(before),
        None => { if is { Some(range) } else { None } }
    }
}

/// Whether a stream has this name.
fn is(name: &[u8], text: &[u8]) -> bool
    ensures { result ≡ bytes_eq name.now text.now }
{
    name == text
}

/// Takes note of a stream, unless one of its name was found before.
fn noted(found: &Found, stream: &Stream<'_>) -> Found
    ensures { found_seen result ≡ noting.noted (found_seen found.now) (stream_seen stream.now) }
{
    Found {
        tables: first_of(found.tables, is(stream.name, b"#~"), stream.range),
        texts: first_of(found.texts, is(stream.name, b"#Strings"), stream.range),
        users: first_of(found.users, is(stream.name, b"#US"), stream.range),
        guids: first_of(found.guids, is(stream.name, b"#GUID"), stream.range),
        blobs: first_of(found.blobs, is(stream.name, b"#Blob"), stream.range),
        uncompressed: found.uncompressed || is(stream.name, b"#-"),
    }
}

/// What so many stream headers from an offset on name.
fn headers(image: &[u8], metadata: &Range, count: u64, first: u64) -> Result<Found, ImageFault>
    requires root { metadata.now.offset < 2 ^ 33 }
    requires count { count < 2 ^ 32 }
    requires first { first < 2 ^ 34 }
    ensures { Gives (λ x. found_seen x) result (all_found (root_as.headers image.now (range_seen metadata.now) count first)) }
{
    let mut found = Found {
        tables: None,
        texts: None,
        users: None,
        guids: None,
        blobs: None,
        uncompressed: false,
    };
    let mut at = first;
    for _ in 0..count {
        let stream = header_at(image, metadata, at)?;
        found = noted(&found, &stream);
        at += 8 + (stream.name.len() as u64 / 4 + 1) * 4;
    }
    Ok(found)
}

/// What the headers behind the root name.
fn stream_headers(image: &[u8], root: &Range) -> Result<Found, ImageFault>
    requires root { root.now.offset < 2 ^ 33 }
    ensures { Gives (λ x. found_seen x) result (all_found (root_as.stream_headers image.now (range_seen root.now))) }
{
    checked(
        begins(image, root.offset, b"BSJB"),
        ImageKind::NoRoot,
        root.offset,
    )?;
    let long = field(image, ImageKind::NoRoot, root.offset + 12, 4)?;
    let version = begins(image, root.offset + 16, b"WindowsRuntime 1.");
    checked(version, ImageKind::NotWindowsRuntime, root.offset + 16)?;
    let count = field(image, ImageKind::NoRoot, root.offset + 18 + long, 2)?;
    headers(image, root, count, root.offset + 20 + long)
}

/// A stream that has to be there.
fn needed(root: u64, stream: Option<Range>) -> Result<Range, ImageFault>
    ensures { Gives (λ x. range_seen x) result (root_as.needed root (maybe_seen stream)) }
{
    match stream {
        Some(range) => Ok(range),
        None => Err(fault(ImageKind::MissingStream, root)),
    }
}

/// A stream that may be missing.
fn or_empty(stream: Option<Range>) -> Range
    ensures { range_seen result ≡ root_as.or_empty (maybe_seen stream) }
{
    match stream {
        Some(range) => range,
        None => Range { offset: 0, size: 0 },
    }
}

/// The five streams among those that were found.
fn ranges_among(root: u64, found: &Found) -> Result<Ranges, ImageFault>
    ensures { Gives (λ x. ranges_seen x) result (noting.streams_found root (found_seen found.now)) }
{
    checked(!found.uncompressed, ImageKind::Uncompressed, root)?;
    let tables = needed(root, found.tables)?;
    let texts = needed(root, found.texts)?;
    let guids = needed(root, found.guids)?;
    let blobs = needed(root, found.blobs)?;
    let users = or_empty(found.users);
    Ok(Ranges {
        tables,
        texts,
        users,
        guids,
        blobs,
    })
}

/// Where the five streams of an image stand, or its first fault.
pub fn ranges_of(image: &[u8]) -> Result<Ranges, ImageFault>
    ensures { Gives (λ x. ranges_seen x) result (root_as.streams_of image.now) }
{
    let root = root_of(image)?;
    let found = stream_headers(image, &root)?;
    ranges_among(root.offset, &found)
}
