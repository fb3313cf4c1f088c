//! What is known at a place of the heap.

/// Which of the 64 places from here on begin a text, and where the first zero byte from here on stands; the heap's
/// length, if there is none.
#[derive(Clone, Copy, Drop)]
pub(crate) struct Place {
    pub(crate) marks: u64,
    pub(crate) zero: usize,
}
