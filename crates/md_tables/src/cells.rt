//! The cells of a row, and the widths of its columns.

ghost use Rattle.std.specs.Prelude.{◌≡◌, ◌≤◌, ℕ, get_or, length, map};
ghost use Rattle.md_schema.specs.Widths.{width_of};

use arrayvec::ArrayVec;
use md_schema::{Column, Sizes, width};

/// As many numbers as the widest table has columns, in place (Assembly and AssemblyRef have nine: ECMA-335 II.22.2, II.22.5).
pub type Cells = ArrayVec<u32, 9>;

/// How many bytes the cells of columns take (ECMA-335 II.24.2.6).
pub fn widths(sizes: &Sizes, columns: &[Column]) -> Cells
    requires { length columns.now ≤ 9 }
    ensures value { result.items ≡ map (width_of sizes.now) columns.now }
    ensures narrow { (i : ℕ) → get_or result.items i 0 ≤ 4 }
{
    let mut widths = Cells::new();
    for column in columns {
        widths.push(width(sizes, *column));
    }
    widths
}

/// Up to nine numbers.
pub fn cells_from(numbers: &[u32]) -> Cells
    requires { length numbers.now ≤ 9 }
    ensures { result.items ≡ numbers.now }
{
    let mut cells = Cells::new();
    for number in numbers {
        cells.push(*number);
    }
    cells
}
