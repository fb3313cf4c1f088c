//! Where a text begins, by what stands behind.
ghost use Rattle.std.specs.Prelude.{◌≡◌, ◌+◌, ◌<◌, ◌≤◌, length, take, drop, slice_index, MatchBool};
ghost use Rattle.std.specs.Str.{IsUtf8, continuation_len};
ghost use Rattle.strings_heap.specs.Texts.{begins_text as begins_text_there, AreMarks};

use crate::marks::is_marked;
use std::str;

// How many bytes a character has that begins with this byte, if any does.
fn character_size(lead: u8) -> usize
    requires { 128 ≤ lead }
    ensures value { result ≡ continuation_len lead + 1 }
    ensures few { result ≤ 4 }
    ensures some { 2 ≤ result }
{
    if lead < 224 {
        2
    } else if lead < 240 {
        3
    } else {
        4
    }
}

// Whether so many bytes at the front are there and are UTF-8.
fn begins_utf8(bytes: &[u8], size: usize) -> bool
    ensures { MatchBool result ((size ≤ length bytes.now) × IsUtf8 (take size bytes.now)) (¬ ((size ≤ length bytes.now) × IsUtf8 (take size bytes.now))) }
{
    if bytes.len() < size {
        return false;
    }
    match str::from_utf8(&bytes[..size]) {
        Ok(_) => true,
        Err(_) => false,
    }
}

// The bytes from a place on.
fn tail(bytes: &[u8], start: usize) -> &[u8]
    requires { start ≤ length bytes.now }
    ensures { result.now ≡ drop start bytes.now }
{
    &bytes[start..]
}

// Whether a text begins at a byte that isn't ASCII.
fn begins_wide(bytes: &[u8], at: usize, behind: u64) -> bool
    requires within { at < length bytes.now }
    requires marks { AreMarks bytes.now (at + 1) behind }
    requires wide { 128 ≤ slice_index bytes.now at }
    ensures { result ≡ begins_text_there (drop at bytes.now) }
{
    let size = character_size(bytes[at]);
    if begins_utf8(tail(bytes, at), size) {
        is_marked(behind, size - 1)
    } else {
        false
    }
}

/// Whether a text begins at the place, by the marks of the places behind it.
pub(crate) fn begins_text(bytes: &[u8], at: usize, behind: u64) -> bool
    requires within { at < length bytes.now }
    requires marks { AreMarks bytes.now (at + 1) behind }
    ensures { result ≡ begins_text_there (drop at bytes.now) }
{
    let byte = bytes[at];
    if byte == 0 {
        return true;
    }
    if byte < 128 {
        return is_marked(behind, 0);
    }
    begins_wide(bytes, at, behind)
}
