//! Names in two parts, as they stand in other texts.

ghost use Rattle.std.specs.Prelude.{◌≡◌, ◌<◌, ◌++◌, length, slice_index};
ghost use Rattle.std.specs.Str.{bytes_eq};
ghost use Rattle.wr_base.specs.Lower.{lower};

use member_counts::same_but_for_case;
use std::marker::Model;

/// A name behind what its kind begins with, as `get_` and `Name`, which contracts see as one text.
#[derive(Drop)]
pub(crate) struct Joined<'a> {
    kind: &'a str,
    name: &'a str,
}

impl<'a> Model for Joined<'a> {
    ghost use Rattle.std.specs.Prelude.{ℕ, List, ◌++◌};

    ghost Value = { List ℕ };

    ghost view = { λ j. j.kind.now ++ j.name.now };
}

impl<'a> Joined<'a> {
    /// The name behind the kind.
    pub(crate) fn new(kind: &'a str, name: &'a str) -> Joined<'a>
        ensures { result ≡ kind.now ++ name.now }
    {
        Joined { kind, name }
    }

    /// The name alone.
    pub(crate) fn whole(name: &'a str) -> Joined<'a>
        ensures { result ≡ name.now }
    {
        Joined { kind: "", name }
    }

    fn len(&self) -> usize
        ensures { result ≡ length self.now }
    {
        self.kind.len() + self.name.len()
    }

    fn byte(&self, index: usize) -> u8
        requires { index < length self.now }
        ensures { result ≡ slice_index self.now index }
    {
        if index < self.kind.len() {
            self.kind.as_bytes()[index]
        } else {
            self.name.as_bytes()[index - self.kind.len()]
        }
    }
}

fn same_bytes(one: &Joined, other: &Joined) -> bool
    ensures { result ≡ bytes_eq (lower one.now) (lower other.now) }
{
    if one.len() != other.len() {
        return false;
    }
    for index in 0..one.len() {
        let byte = one.byte(index);
        if !byte.eq_ignore_ascii_case(&other.byte(index)) {
            return false;
        }
    }
    true
}

/// Whether two are one text but for ASCII case.
pub(crate) fn is_same(one: &Joined, other: &Joined) -> bool
    ensures { result ≡ bytes_eq (lower one.now) (lower other.now) }
{
    if one.kind.is_empty() && other.kind.is_empty() {
        same_but_for_case(one.name, other.name)
    } else {
        same_bytes(one, other)
    }
}
