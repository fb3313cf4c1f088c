//! Attributes' values as they are read (ECMA-335 II.23.3).

ghost use Rattle.std.specs.Prelude.{◌≡◌, IfOk, option_map};
ghost use Rattle.md_heaps.specs.Integers.{compressed_of};
ghost use Rattle.sig_blobs.specs.Attributes as attributes;
ghost use Rattle.sig_blobs.specs.Given.{Gives};

use crate::argument::{Argument, ArgumentKind};
use byteorder::{ByteOrder, LittleEndian};
use md_heaps::{compressed, guid_at};
use md_schema::{ImageFault, ImageKind};
use ranked::{Memory, Name, Stop};
use std::alloc::Global;
use wr_base::FullName;

fn behind_prolog(blob: &[u8]) -> Option<&[u8]>
    ensures { option_map (λ x. x.now) result ≡ attributes.behind_prolog blob.now }
{
    match blob {
        [1, 0, rest @ ..] => Some(rest),
        _ => None,
    }
}

fn number_in(bytes: &[u8]) -> Option<Argument>
    ensures { result ≡ attributes.number_in bytes.now }
{
    if bytes.len() < 4 {
        return None;
    }
    Some(Argument::Number(LittleEndian::read_u32(bytes)))
}

fn id_in(bytes: &[u8]) -> Option<Argument>
    ensures { result ≡ attributes.id_in bytes.now }
{
    match guid_at(bytes, 1) {
        Ok(id) => Some(Argument::Id(id)),
        Err(_) => None,
    }
}

fn first_bytes(count: u32, bytes: &[u8]) -> Option<&[u8]>
    ensures { option_map (λ x. x.now) result ≡ attributes.first_bytes count bytes.now }
{
    if bytes.len() < count as usize {
        return None;
    }
    Some(&bytes[..count as usize])
}

fn text_behind(bytes: &[u8]) -> Option<&[u8]>
    ensures { option_map (λ x. x.now) result ≡ attributes.text_behind bytes.now (compressed_of bytes.now) }
{
    match compressed(bytes) {
        Ok((count, size)) => first_bytes(count, &bytes[size as usize..]),
        Err(_) => None,
    }
}

fn utf8_of(bytes: &[u8]) -> Option<&str>
    ensures { option_map (λ x. x.now) result ≡ attributes.utf8_text bytes.now }
{
    match std::str::from_utf8(bytes) {
        Ok(text) => Some(text),
        Err(_) => None,
    }
}

fn text_in(bytes: &[u8]) -> Option<&str>
    ensures { option_map (λ x. x.now) result ≡ attributes.text_in bytes.now }
{
    match text_behind(bytes) {
        Some(text) => utf8_of(text),
        None => None,
    }
}

fn words_in(alloc: Global, bytes: &[u8]) -> Result<Option<Argument>, Memory>
    ensures { IfOk result (λ x. x ≡ attributes.words_of (attributes.text_in bytes.now)) }
{
    let Some(text) = text_in(bytes) else {
        return Ok(None);
    };
    let words = Name::new(String::from_str(alloc, text)?);
    Ok(Some(Argument::Words(words)))
}

fn before_comma(text: &str) -> &str
    ensures { result.now ≡ attributes.before_comma text.now }
{
    match text.split_once(',') {
        Some((front, _)) => front,
        None => text,
    }
}

fn type_name_in(alloc: Global, bytes: &[u8]) -> Result<Option<Argument>, Memory>
    ensures { IfOk result (λ x. x ≡ attributes.type_name_of (attributes.text_in bytes.now)) }
{
    let Some(text) = text_in(bytes) else {
        return Ok(None);
    };
    match FullName::new(String::from_str(alloc, before_comma(text))?) {
        Some(path) => Ok(Some(Argument::TypeName(path))),
        None => Ok(None),
    }
}

fn argument_in(alloc: Global, kind: ArgumentKind, bytes: &[u8]) -> Result<Option<Argument>, Memory>
    ensures { IfOk result (λ x. x ≡ attributes.argument_in kind bytes.now) }
{
    match kind {
        ArgumentKind::Number => Ok(number_in(bytes)),
        ArgumentKind::Words => words_in(alloc, bytes),
        ArgumentKind::TypeName => type_name_in(alloc, bytes),
        ArgumentKind::Id => Ok(id_in(bytes)),
    }
}

fn shaped(offset: u64, found: Option<Argument>) -> Result<Argument, Stop<ImageFault>>
    ensures { Gives (λ x. x) result (attributes.shaped offset found) }
{
    match found {
        Some(argument) => Ok(argument),
        None => Err(Stop::Refused(ImageFault {
            kind: ImageKind::BadShape,
            offset,
        })),
    }
}

/// The first argument of an attribute's value, which is of this kind. What follows it is passed over. BadShape stands at the prolog or
/// at the argument.
pub fn first_argument(
    alloc: Global,
    blob: &[u8],
    kind: ArgumentKind,
) -> Result<Argument, Stop<ImageFault>>
    ensures { Gives (λ x. x) result (attributes.first_argument kind blob.now) }
{
    let Some(bytes) = behind_prolog(blob) else {
        return shaped(0, None);
    };
    let found = argument_in(alloc, kind, bytes)?;
    shaped(2, found)
}
