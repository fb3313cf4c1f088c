use crate::index::Index;
use crate::scoped::Scoped;
use std::alloc::Global;

/// What the uses of an item are resolved with.
#[derive(Clone, Copy)]
pub(crate) struct Scope<'a> {
    pub(crate) alloc: Global,
    pub(crate) index: &'a Index,
    pub(crate) item: &'a Scoped<'a>,
}
