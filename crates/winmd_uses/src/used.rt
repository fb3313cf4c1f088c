//! The names, constructors and instances that were taken so far.

ghost use Rattle.std.specs.Prelude.{◌≡◌, length};

use crate::instances::Instances;
use crate::names::Names;
use std::alloc::Global;
use wr_base::Types;

/// What the rows of a set use.
#[derive(Drop)]
pub struct Used<'a> {
    pub(crate) types: &'a Types,
    pub(crate) names: Names,
    pub(crate) makers: [bool; 9],
    pub(crate) instances: Instances,
    pub(crate) alloc: Global,
    ghost nine: { length makers ≡ 9 },
}
