//! What stands at the front of a use.

use wr_base::{FullName, TypeUse};

/// All of a use, or a template and how many arguments follow.
#[derive(Drop)]
pub(crate) enum Front {
    Alone(TypeUse),
    Applied(FullName, u32),
}
