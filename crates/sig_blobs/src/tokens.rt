//! The number that stands for each type name where signatures are written.

use ranked::Memory;
use std::alloc::Global;
use std::collections::HashMap;

/// The TypeDefOrRef coded index of each type (ECMA-335 II.24.2.6), by full name, and that of all others; a template's ends with a back quote and the number
/// of its arguments.
#[derive(Drop)]
pub struct Tokens {
    pub(crate) numbers: HashMap<String, u32>,
    pub(crate) other: u32,
}
