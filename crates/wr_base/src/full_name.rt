//! Full names: two or more identifiers joined by dots.

ghost use Rattle.std.specs.Prelude.{◌≡◌, ◌∷◌, ◌++◌, ◌↔◌, ◌==◌, IsTrue, IfOk, IsSome, IfSome, length, nat_le, string_bytes};
ghost use Rattle.std.specs.List.{list_all};
ghost use Rattle.std.proofs.Common.{rules};
ghost use Rattle.std.specs.Str.{bytes_eq};
ghost use Rattle.std.specs.Cmp.Rules.{comparing};
ghost use Rattle.wr_base.specs.Parts.{before_last, behind_last};
ghost use Rattle.wr_base.specs.Paths.{is_identifier, is_path, is_rest, is_short_name, is_short_part, is_start, parts_of};

use std::alloc::{AllocError, Global};
use std::marker::Model;

/// Two or more identifiers joined by dots, as `Windows.Foundation`, which contracts see as its bytes.
#[derive(Debug, Drop)]
pub struct FullName {
    text: String,
}

impl Model for FullName {
    ghost use Rattle.std.specs.Prelude.{List, ℕ, IsTrue, string_bytes};
    ghost use Rattle.wr_base.specs.Paths.{is_path};

    ghost Value = { List ℕ };

    ghost view = { λ n. string_bytes n.text };

    ghost invariant = { λ n. IsTrue (is_path (string_bytes n.text)) };
}

fn tests_start(b: u8) -> bool
    ensures { result ≡ is_start b }
{
    b.is_ascii_alphabetic() || b == b'_'
}

fn tests_rest(b: u8) -> bool
    ensures { result ≡ is_rest b }
{
    tests_start(b) || b.is_ascii_digit()
}

/// Whether these bytes are an ASCII letter or `_`, and then letters, digits and `_`.
pub fn tests_identifier(bytes: &[u8]) -> bool
    ensures { result ≡ is_identifier bytes.now }
{
    match bytes.split_first() {
        None => false,
        Some((first, rest)) => tests_start(*first) && rest.iter().all(|b| tests_rest(*b)),
    }
}

fn has_two_parts(bytes: &[u8]) -> bool
    ensures { result ≡ nat_le 2 (length (parts_of bytes.now)) }
{
    bytes.split(|b| *b == b'.').count() >= 2
}

fn has_identifiers(bytes: &[u8]) -> bool
    ensures { result ≡ list_all is_identifier (parts_of bytes.now) }
{
    bytes
        .split(|b| *b == b'.')
        .all(|part| tests_identifier(part))
}

fn tests_path(bytes: &[u8]) -> bool
    ensures { result ≡ is_path bytes.now }
{
    has_two_parts(bytes) && has_identifiers(bytes)
}

/// The most bytes of a full name.
const LONGEST_NAME: usize = 511;

/// The most bytes of a part of a full name.
const LONGEST_PART: usize = 255;

/// Whether a part of a full name, or a member's name, has at most 255 bytes.
pub fn tests_short_part(part: &[u8]) -> bool
    ensures { result ≡ is_short_part part.now }
{
    part.len() <= LONGEST_PART
}

fn has_short_parts(bytes: &[u8]) -> bool
    ensures { result ≡ list_all is_short_part (parts_of bytes.now) }
{
    bytes
        .split(|b| *b == b'.')
        .all(|part| tests_short_part(part))
}

/// Whether a full name has at most 511 bytes, and at most 255 in each part.
pub fn tests_short_name(bytes: &[u8]) -> bool
    ensures { result ≡ is_short_name bytes.now }
{
    bytes.len() <= LONGEST_NAME && has_short_parts(bytes)
}

// What stands before the last dot, and what stands behind it.
fn around_last_dot(text: &str) -> (&str, &str)
    ensures space { result.0.now ≡ before_last 46 text.now }
    ensures name { result.1.now ≡ behind_last 46 text.now }
{
    match text.rsplit_once('.') {
        Some((space, name)) => (space, name),
        None => ("", text),
    }
}

impl FullName {
    /// The full name with this text, where the text is one.
    pub fn new(text: String) -> Option<FullName>
        ensures some { IsSome result ↔ IsTrue (is_path (string_bytes text)) }
        ensures value { IfSome result (λ n. n ≡ string_bytes text) }
    {
        if tests_path(text.as_bytes()) {
            Some(FullName { text })
        } else {
            None
        }
    }

    /// The text.
    pub fn as_str(&self) -> &str
        ensures value { result.now ≡ self.now }
        ensures path { IsTrue (is_path self.now) }
    {
        self.text.as_str()
    }

    /// The namespace before the last dot, and the name behind it.
    pub fn parts(&self) -> (&str, &str)
        ensures space { result.0.now ≡ before_last 46 self.now }
        ensures name { result.1.now ≡ behind_last 46 self.now }
        ensures joined { result.0.now ++ 46 ∷ result.1.now ≡ self.now }
    {
        around_last_dot(self.text.as_str())
    }

    /// Whether it has at most 511 bytes, and at most 255 in each part.
    pub fn is_short(&self) -> bool
        ensures { result ≡ is_short_name self.now }
    {
        tests_short_name(self.text.as_bytes())
    }

    // The allocator of the text.
    pub(crate) fn allocator(&self) -> Global {
        *self.text.allocator()
    }
}

impl Clone for FullName {
    ghost is_clone = { λ a b. b ≡ a };

    fn clone(&self) -> Result<FullName, AllocError> {
        Ok(FullName {
            text: self.text.clone()?,
        })
    }
}

impl PartialEq for FullName {
    ghost eq = { bytes_eq };

    ghost laws = { Prim.search (comparing, rules) };

    fn eq(&self, other: &FullName) -> bool {
        self.text.as_str() == other.text.as_str()
    }
}
