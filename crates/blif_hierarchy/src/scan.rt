// What a search has of a node, and of its edges.
ghost use Rattle.std.specs.Prelude.{◌≡◌};
ghost use Rattle.blif_hierarchy.specs.Components.{targets};
ghost use Rattle.blif_hierarchy.specs.Searching.{node_mark};

/// How far the search has come with a node.
#[derive(Clone, Copy)]
pub(crate) enum Mark {
    New,
    /// At this place of the stack.
    Open(usize),
    /// With the number of its component.
    Done(usize),
}

/// An open node with which a part of the stack begins: its place there, the lowest place that the part is known to reach, and the
/// first of the node's edges that the search hasn't come to.
#[derive(Clone, Copy)]
pub(crate) struct Frame {
    pub node: usize,
    pub place: usize,
    pub low: usize,
    pub next: usize,
}

pub(crate) fn mark_of(marks: &[Mark], node: usize) -> Mark
    ensures { result ≡ node_mark marks.now node }
{
    marks.get(node).copied().unwrap_or(Mark::New)
}

/// The nodes to which a node has an edge.
pub(crate) fn targets_of(edges: &[Vec<usize>], node: usize) -> &[usize]
    ensures { result.now ≡ targets edges.now node }
{
    match edges.get(node) {
        Some(targets) => targets.as_slice(),
        None => &[],
    }
}
