//! The names of a set, together.

ghost use Rattle.std.specs.Prelude.{◌≤◌, ◌<◌, ◌^◌, length};
ghost use Rattle.winmd_names.specs.Exact.{HasNumbers, HasRows};

use sig_blobs::Tokens;
use std::alloc::Global;
use std::collections::HashMap;
use winmd_uses::Maker;
use wr_base::{FullName, TypeUse};

/// The full names of the types that are declared, and of TypeRefs.
#[derive(Drop)]
pub struct TypeNames {
    pub(crate) types: Vec<FullName>,
    pub(crate) refs: Vec<String>,
}

/// Instances in the order of their TypeSpecs, and the row of each.
#[derive(Drop)]
pub struct InstanceRows {
    pub(crate) list: Vec<TypeUse>,
    pub(crate) rows: HashMap<Vec<u8>, u32>,
    ghost few: { length list.items < 2 ^ 24 },
    ghost exact: { HasRows list.items rows },
}

/// The names of a set's types, TypeRefs, TypeSpecs and constructors, and the number of each name.
#[derive(Drop)]
pub struct SetNames {
    pub(crate) types: TypeNames,
    pub(crate) instances: InstanceRows,
    pub(crate) makers: Vec<Maker>,
    pub(crate) tokens: Tokens,
    pub(crate) alloc: Global,
    ghost few: { length makers.items ≤ 9 },
    ghost numbered: { HasNumbers types.types.items types.refs.items tokens },
}
