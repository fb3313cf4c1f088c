//! What a row of TypeDef states.

use wr_base::Declaration;

/// The declaration that a row of TypeDef states, with the row's number, which counts from 1 (ECMA-335 II.22.37).
#[derive(Drop)]
pub struct Stated {
    pub row: u32,
    pub declaration: Declaration,
}
