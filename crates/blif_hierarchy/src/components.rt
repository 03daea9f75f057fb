// Strongly connected components of a directed graph.
ghost use Rattle.std.specs.Prelude.{◌≡◌, IfOk, map};
ghost use Rattle.blif_hierarchy.specs.Components.{AreComponents, AreEdges};
ghost use Rattle.blif_hierarchy.specs.NodeNumbers.{node_number};

use crate::scan::Mark;
use crate::search::Search;
use room::{NoRoom, collect};
use std::alloc::Global;

fn number_of(mark: Mark) -> usize
    ensures { result ≡ node_number mark }
{
    match mark {
        Mark::Done(number) => number,
        _ => 0,
    }
}

fn numbers_of(alloc: Global, marks: &[Mark]) -> Result<Vec<usize>, NoRoom>
    ensures { IfOk result (λ v. v.items ≡ map node_number marks.now) }
{
    collect(marks.iter().map(|mark| number_of(*mark)), alloc)
}

/// The number of each node's strongly connected component. `edges` has for each node the nodes to which it has an edge. No edge
/// leads to a component of a greater number.
pub fn components(alloc: Global, edges: &[Vec<usize>]) -> Result<Vec<usize>, NoRoom>
    requires { AreEdges edges.now }
    ensures { IfOk result (λ v. AreComponents edges.now v.items) }
{
    let mut search = Search::new(alloc, edges.len())?;
    for root in 0..edges.len() {
        search.visit(edges, root)?;
    }
    numbers_of(alloc, search.marks.as_slice())
}
