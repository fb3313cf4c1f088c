//! A row of a table.

/// A row as numbers, one for each column of its table (ECMA-335 II.22).
#[derive(Clone, Copy, Debug, PartialEq, Eq)]
pub struct Row<const N: usize> {
    pub cells: [u32; N],
}
