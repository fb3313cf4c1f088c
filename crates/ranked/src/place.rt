/// A byte of a file: the file's number in its set, from 0, and the offset of the byte in it, from 0.
#[derive(Clone, Copy, Debug, PartialEq, Eq)]
pub struct Place {
    pub file: u32,
    pub offset: u32,
}
