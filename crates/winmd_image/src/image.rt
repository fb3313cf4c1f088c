//! The whole image around its streams.

ghost use Rattle.std.specs.Prelude.{◌≡◌, ◌+◌, ◌<◌, ◌^◌, ◌++◌, nat_lt, IfOk, OnOk, length};
ghost use Rattle.md_bytes.specs.Padding.{padded};
ghost use Rattle.winmd_image.specs.Parts.{Small, five, padded_parts, padded_types, size_of};
ghost use Rattle.winmd_image.specs.Spelled.{image_bytes};

use crate::file_headers::{put_headers, put_section_end};
use crate::stream_headers::{Sizes, put_metadata_head, put_streams};
use std::alloc::{AllocError, Global};

/// How many bytes a stream takes, with the zeros behind it.
pub fn padded_size(bytes: &[u8]) -> u64
    ensures { result ≡ length (padded bytes.now) }
{
    (bytes.len() as u64 + 3) / 4 * 4
}

/// The image at the end of `out`.
fn put_image(
    out: &mut Vec<u8>,
    tables: &[u8],
    texts: &[u8],
    users: &[u8],
    guids: &[u8],
    blobs: &[u8],
) -> Result<(), AllocError>
    requires { Small (padded_parts (five tables.now texts.now users.now guids.now blobs.now)) }
    ensures { OnOk result (out.new.items ≡ out.old.items ++ image_bytes (padded_parts (five tables.now texts.now users.now guids.now blobs.now))) }
{
    let sizes = Sizes {
        tables: padded_size(tables),
        texts: padded_size(texts),
        users: padded_size(users),
        guids: padded_size(guids),
        blobs: padded_size(blobs),
    };
    let metadata = 116 + sizes.tables + sizes.texts + sizes.users + sizes.guids + sizes.blobs;
    put_headers(out, metadata)?;
    put_metadata_head(out, &sizes)?;
    put_streams(out, tables, texts, users, guids, blobs)?;
    put_section_end(out, 72 + metadata)
}

/// The image around these streams, each of which is filled up with zeros to a multiple of four (ECMA-335 II.24.2, II.25). Together they
/// have less than 2^31 bytes then.
pub fn wrap(
    alloc: Global,
    tables: &[u8],
    texts: &[u8],
    users: &[u8],
    guids: &[u8],
    blobs: &[u8],
) -> Result<Vec<u8>, AllocError>
    requires { Small (padded_parts (five tables.now texts.now users.now guids.now blobs.now)) }
    ensures { IfOk result (λ bytes. bytes.items ≡ image_bytes (padded_parts (five tables.now texts.now users.now guids.now blobs.now))) }
{
    let mut out = Vec::new(alloc);
    put_image(&mut out, tables, texts, users, guids, blobs)?;
    Ok(out)
}

/// Whether an image has room for these streams: together they have less than 2^31 bytes.
pub fn has_room(tables: &[u8], texts: &[u8], users: &[u8], guids: &[u8], blobs: &[u8]) -> bool
    ensures { result ≡ nat_lt (size_of (padded_parts (five tables.now texts.now users.now guids.now blobs.now))) (2 ^ 31) }
{
    let first = padded_size(tables) as u128
        + padded_size(texts) as u128
        + padded_size(users) as u128;
    first + padded_size(guids) as u128 + (padded_size(blobs) as u128) < 1 << 31
}

/// `#US` of an image that states types: it is empty, and four bytes long.
const NO_USERS: &[u8] = b"\0\0\0\0";

/// `#GUID` of an image that states types: one Guid, of zeros.
const ONE_GUID: &[u8] = b"\0\0\0\0\0\0\0\0\0\0\0\0\0\0\0\0";

/// The image of these tables, texts and blobs, with a `#US` of four zeros, and one Guid of zeros. Streams for which an image has no room are want
/// of memory.
#[tactic(auto, unfolding(md_bytes::specs::Padding::zeros))]
pub fn wrap_types(
    alloc: Global,
    tables: &[u8],
    texts: &[u8],
    blobs: &[u8],
) -> Result<Vec<u8>, AllocError>
    ensures { IfOk result (λ bytes. bytes.items ≡ image_bytes (padded_types tables.now texts.now blobs.now)) }
{
    if !has_room(tables, texts, NO_USERS, ONE_GUID, blobs) {
        return Err(AllocError);
    }
    wrap(alloc, tables, texts, NO_USERS, ONE_GUID, blobs)
}
