//! Why sets make no set that is accepted.

use wr_base::{FullName, Refusal};

/// Why sets make no set that is accepted.
#[derive(Debug, Drop)]
pub enum MergeRefusal {
    /// The least full name of which two declarations differ.
    Conflict(FullName),
    /// The first entry of the rules and limits that is broken in the union. Its place is the number of the declaration or part in
    /// the union, from 0, since there is no file.
    Broken(Refusal),
}
