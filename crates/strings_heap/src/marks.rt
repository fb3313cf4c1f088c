//! Sixty-four marks in a number, the first in its lowest bit.
ghost use Rattle.std.specs.Prelude.{◌≡◌, ℕ, ◌+◌, ◌<◌};
ghost use Rattle.std.specs.Int.{bit_at};
ghost use Rattle.strings_heap.specs.Texts.{mark};

/// Whether the place has its mark.
pub(crate) fn is_marked(marks: u64, place: usize) -> bool
    requires { place < 64 }
    ensures { mark result ≡ bit_at marks place }
{
    (marks >> place) & 1 == 1
}

/// The marks with one more at the front. The last is dropped.
pub(crate) fn marked(marks: u64, first: bool) -> u64
    ensures front { bit_at result 0 ≡ mark first }
    ensures behind { (k : ℕ) → k < 63 → bit_at result (k + 1) ≡ bit_at marks k }
{
    let low = marks % 0x8000_0000_0000_0000;
    if first { low * 2 + 1 } else { low * 2 }
}
