//! What is wrong with a blob.

use md_schema::ImageKind;

/// What is wrong, and how many bytes of the blob are left from there on.
#[derive(Clone, Copy, Debug, PartialEq, Eq)]
pub struct Flaw {
    pub kind: ImageKind,
    pub left: usize,
}
