ghost use Rattle.std.specs.Prelude.{◌≡◌};
ghost use Rattle.std.specs.Ordering.{is_gt};
ghost use Rattle.ranked.specs.Entries.{entry_cmp, earlier_of};

use crate::{Name, Place};
use std::cmp::Ordering;
use std::marker::Model;

/// A code with its number in the order of its table.
pub trait Rank {
    ghost use Rattle.std.specs.Prelude.{ℕ};

    ghost rank: { Self → ℕ };

    fn rank(&self) -> u16
        ensures { result ≡ Self.rank self.now };
}

/// What is refused: the place, the code, and the word that the text on the refusal names (an empty one is none).
#[derive(Debug, Drop)]
pub struct Refusal<C: Rank> {
    pub place: Place,
    pub code: C,
    pub word: Name,
}

impl<C: Rank> Model for Refusal<C> {
    ghost use Rattle.ranked.specs.Entries.{Entry};

    ghost Value = { Entry };

    ghost view = { λ r. record { file = r.place.file; offset = r.place.offset; code = C.rank r.code; word = r.word } };
}

impl<C: Rank> Refusal<C> {
    /// Whether this one stands after the other, by file, offset, order in the table and word by bytes.
    pub fn is_after(&self, other: &Refusal<C>) -> bool
        ensures { result ≡ is_gt (entry_cmp self.now other.now) }
    {
        let places = self
            .place
            .file
            .cmp(&other.place.file)
            .then(self.place.offset.cmp(&other.place.offset));
        let codes = self.code.rank().cmp(&other.code.rank());
        match places.then(codes) {
            Ordering::Less => false,
            Ordering::Greater => true,
            Ordering::Equal => self.word.as_str() > other.word.as_str(),
        }
    }
}

/// The one that stands first of two that may be there.
#[tactic(auto, unfolding(crate::specs::Entries::earlier_of))]
pub fn earlier<C: Rank + Drop>(a: Option<Refusal<C>>, b: Option<Refusal<C>>) -> Option<Refusal<C>>
    ensures { result ≡ earlier_of a b }
{
    match (a, b) {
        (Some(a), Some(b)) => { if a.is_after(&b) { Some(b) } else { Some(a) } }
        (None, b) => b,
        (a, None) => a,
    }
}
