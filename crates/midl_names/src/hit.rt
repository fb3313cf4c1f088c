use crate::sort::Sort;
use wr_base::FullName;

/// A type that a name means.
#[derive(Debug, Drop)]
pub(crate) struct Hit {
    pub(crate) name: FullName,
    pub(crate) sort: Sort,
}
