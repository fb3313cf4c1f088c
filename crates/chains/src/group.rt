//! Numbers of the path that reach each other.

ghost use Rattle.std.specs.Prelude.{◌≡◌, ◌⊎◌, ◌++◌, ◌∷◌, [], false, IfOk, map};
ghost use Rattle.chains.specs.Groups.{view_of, IsEither, Joined};

use std::alloc::{AllocError, Global};

/// Where a number stands in the search.
#[derive(Clone, Copy, Debug)]
pub(crate) enum Mark {
    New,
    /// On the path, with the number of its visit.
    Open(u32),
    /// Left, and whether it comes back to itself.
    Done(bool),
}

/// Numbers that reach each other, with the steps from them that aren't followed yet.
#[derive(Debug, Drop)]
pub(crate) struct Group {
    pub(crate) nodes: Vec<u32>,
    pub(crate) pending: Vec<u32>,
    /// The least number of a visit among them.
    pub(crate) first: u32,
    /// Whether each comes back to itself.
    pub(crate) cyclic: bool,
}

/// A number alone.
pub(crate) fn alone(
    alloc: Global,
    node: u32,
    first: u32,
    steps: &[u32],
) -> Result<Group, AllocError>
    ensures { IfOk result (λ g. view_of g ≡ record { nodes = node ∷ []; pending = steps.now; first = first; cyclic = false }) }
{
    let mut nodes = Vec::new(alloc);
    nodes.push(node)?;
    let mut pending = Vec::new(alloc);
    pending.extend_from_slice(steps)?;
    Ok(Group {
        nodes,
        pending,
        first,
        cyclic: false,
    })
}

// The shorter one behind the longer one.
fn together(a: Vec<u32>, b: Vec<u32>) -> Result<Vec<u32>, AllocError>
    ensures { IfOk result (λ c. IsEither c.items a.items b.items) }
{
    let mut long = a;
    let mut short = b;
    if long.len() < short.len() {
        std::mem::swap(&mut long, &mut short);
    }
    long.extend_from_slice(short.as_slice())?;
    Ok(long)
}

/// Two groups as one.
pub(crate) fn join(lower: Group, upper: Group) -> Result<Group, AllocError>
    ensures { IfOk result (λ g. Joined (view_of lower) (view_of upper) (view_of g)) }
{
    let nodes = together(lower.nodes, upper.nodes)?;
    let pending = together(lower.pending, upper.pending)?;
    Ok(Group {
        nodes,
        pending,
        first: lower.first,
        cyclic: true,
    })
}
