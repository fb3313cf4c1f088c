//! The laws of parts and numbers at offsets, for layers above that lay out bytes.

ghost use Rattle.std.specs.Prelude.{◌≡◌, ℕ, ◌+◌, ◌^◌, ◌<◌, List, length};
ghost use Rattle.md_bytes.specs.Bytes.{le, number_at, part_at};
ghost use Rattle.md_bytes.specs.Stands.{Stands};

/// A part of a part stands in the whole, where the offsets add.
pub fn part_of_part()
    ensures { (whole part inner : List ℕ) (i j : ℕ) →
        Stands whole i part → Stands part j inner → Stands whole (i + j) inner }
{}

/// A part that stands at an offset is what is read there.
pub fn part_is_read()
    ensures { (whole part : List ℕ) (offset : ℕ) →
        Stands whole offset part → part_at whole offset (length part) ≡ part }
{}

/// A number that is written at an offset, in bytes that it fits, is read there.
pub fn number_stands()
    ensures { (whole : List ℕ) (offset width n : ℕ) → n < 256 ^ width →
        Stands whole offset (le width n) → number_at whole offset width ≡ n }
{}
