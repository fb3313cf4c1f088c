//! What was interned, as the index holds it and as it is looked for. Both are hashed in one write, which takes 16 bytes at a time; a
//! `Vec<u8>` is hashed byte by byte.
ghost use Rattle.std.specs.Prelude.{◌≡◌, [], ◌∷◌};
ghost use Rattle.std.specs.Str.{bytes_eq};
ghost use Rattle.std.specs.Cmp.{on_equiv, on_per, partial_equiv_from_equiv};
ghost use Rattle.std.specs.Cmp.Lexicographic.{bytes_decides, nat_list_eq_equiv};
ghost use Rattle.std.proofs.Common.{ap};

use indexmap::Equivalent;
use std::hash::{Hash, Hasher};

/// The bytes of an entry.
#[derive(Drop)]
pub struct Content {
    pub(crate) bytes: Vec<u8>,
}

impl PartialEq for Content {
    ghost eq = { λ x y. bytes_eq x.bytes.items y.bytes.items };

    ghost laws = { on_per (λ x. x.bytes.items) (partial_equiv_from_equiv nat_list_eq_equiv) };

    fn eq(&self, other: &Content) -> bool {
        self.bytes == other.bytes
    }
}

impl Eq for Content {
    ghost laws = { on_equiv (λ x. x.bytes.items) nat_list_eq_equiv };
}

impl Hash for Content {
    ghost hash_input = { λ c. c.bytes.items ∷ [] };

    ghost respects_eq = { λ x y h. ap (λ bytes. bytes ∷ []) ((bytes_decides x.bytes.items y.bytes.items).0 h) };

    fn hash<H: Hasher>(&self, state: &mut H) {
        state.write(self.bytes.as_slice());
    }
}

/// Bytes that may have been interned.
#[derive(Clone, Copy)]
pub(crate) struct Sought<'a> {
    pub(crate) bytes: &'a [u8],
}

impl<'a> PartialEq for Sought<'a> {
    ghost eq = { λ x y. bytes_eq x.bytes.now y.bytes.now };

    ghost laws = { on_per (λ x. x.bytes.now) (partial_equiv_from_equiv nat_list_eq_equiv) };

    fn eq(&self, other: &Sought<'a>) -> bool {
        self.bytes == other.bytes
    }
}

impl<'a> Eq for Sought<'a> {
    ghost laws = { on_equiv (λ x. x.bytes.now) nat_list_eq_equiv };
}

impl<'a> Hash for Sought<'a> {
    ghost hash_input = { λ s. s.bytes.now ∷ [] };

    ghost respects_eq = { λ x y h. ap (λ bytes. bytes ∷ []) ((bytes_decides x.bytes.now y.bytes.now).0 h) };

    fn hash<H: Hasher>(&self, state: &mut H) {
        state.write(self.bytes);
    }
}

impl<'a> Equivalent<Content> for Sought<'a> {
    ghost equivalent = { λ s c. bytes_eq s.bytes.now c.bytes.items };

    ghost respects_hash = { λ s c h. ap (λ bytes. bytes ∷ []) ((bytes_decides s.bytes.now c.bytes.items).0 h) };

    ghost respects_eq = { λ s x y. nat_list_eq_equiv.congr s.bytes.now x.bytes.items y.bytes.items };

    fn equivalent(&self, key: &Content) -> bool {
        self.bytes == key.bytes.as_slice()
    }
}
