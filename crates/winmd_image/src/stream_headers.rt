//! The metadata as it is written: its root, the headers of its streams, and the streams (ECMA-335 II.24.2).

ghost use Rattle.std.specs.Prelude.{◌≡◌, ◌+◌, ◌<◌, ◌^◌, ◌++◌, OnOk};
ghost use Rattle.md_bytes.specs.Padding.{padded};
ghost use Rattle.winmd_image.specs.Spelled.{root_head, stream_heads, stream_head};

use md_bytes::{put_number, put_numbers, put_padded};
use std::alloc::AllocError;

/// How many bytes each of the five streams has.
#[derive(Clone, Copy, Debug)]
pub struct Sizes {
    pub tables: u64,
    pub texts: u64,
    pub users: u64,
    pub guids: u64,
    pub blobs: u64,
}

/// A stream's header: where it begins, counted from the root, its size, and its name with the zeros behind it (II.24.2.2).
fn put_stream_header(
    out: &mut Vec<u8>,
    offset: u64,
    size: u64,
    name: &[u8],
) -> Result<(), AllocError>
    ensures { OnOk result (out.new.items ≡ out.old.items ++ stream_head offset size name.now) }
{
    put_number(out, 4, offset)?;
    put_number(out, 4, size)?;
    out.extend_from_slice(name)?;
    Ok(())
}

/// The root (II.24.2.1).
#[tactic(auto, unfolding(crate::specs::Spelled::root_head))]
fn put_root(out: &mut Vec<u8>) -> Result<(), AllocError>
    ensures { OnOk result (out.new.items ≡ out.old.items ++ root_head) }
{
    put_number(out, 4, 0x424A_5342)?;
    put_numbers(out, 2, &[1, 1])?;
    put_numbers(out, 4, &[0, 20])?;
    out.extend_from_slice(b"WindowsRuntime 1.4\0\0")?;
    put_numbers(out, 2, &[0, 5])?;
    Ok(())
}

/// The headers of the five streams.
#[tactic(auto, unfolding(crate::specs::Spelled::stream_heads))]
fn put_stream_headers(out: &mut Vec<u8>, sizes: &Sizes) -> Result<(), AllocError>
    requires { sizes.now.tables + sizes.now.texts + sizes.now.users + sizes.now.guids + sizes.now.blobs < 2 ^ 31 }
    ensures { OnOk result (out.new.items ≡ out.old.items ++ stream_heads sizes.now.tables sizes.now.texts sizes.now.users sizes.now.guids sizes.now.blobs) }
{
    let texts = 116 + sizes.tables;
    let users = texts + sizes.texts;
    let guids = users + sizes.users;
    put_stream_header(out, 116, sizes.tables, b"#~\0\0")?;
    put_stream_header(out, texts, sizes.texts, b"#Strings\0\0\0\0")?;
    put_stream_header(out, users, sizes.users, b"#US\0")?;
    put_stream_header(out, guids, sizes.guids, b"#GUID\0\0\0")?;
    put_stream_header(out, guids + sizes.guids, sizes.blobs, b"#Blob\0\0\0")
}

/// The root and the headers of the five streams.
pub fn put_metadata_head(out: &mut Vec<u8>, sizes: &Sizes) -> Result<(), AllocError>
    requires { sizes.now.tables + sizes.now.texts + sizes.now.users + sizes.now.guids + sizes.now.blobs < 2 ^ 31 }
    ensures { OnOk result (out.new.items ≡ out.old.items ++ (root_head ++ stream_heads sizes.now.tables sizes.now.texts sizes.now.users sizes.now.guids sizes.now.blobs)) }
{
    put_root(out)?;
    put_stream_headers(out, sizes)
}

/// The five streams in their order, each with zeros behind it up to a multiple of four.
pub fn put_streams(
    out: &mut Vec<u8>,
    tables: &[u8],
    texts: &[u8],
    users: &[u8],
    guids: &[u8],
    blobs: &[u8],
) -> Result<(), AllocError>
    ensures { OnOk result (out.new.items ≡ out.old.items ++ (padded tables.now ++ padded texts.now ++ padded users.now ++ padded guids.now ++ padded blobs.now)) }
{
    put_padded(out, tables)?;
    put_padded(out, texts)?;
    put_padded(out, users)?;
    put_padded(out, guids)?;
    put_padded(out, blobs)
}
