//! Orders and searches of small graphs. All graphs of up to three nodes are given to the built program by
//! `tests/listings.py`, against a plain search, and long ones by `tests/rows/listings.py`.
ghost use Rattle.std.specs.Prelude.{◌≡◌, ◌<◌, length, IfOk};

mod growths;

use dep_order::{Digraph, Reaching, Sorting, reach};
use std::alloc::{AllocError, Global};

/// Node 0 needs node 1, node 1 needs node 2, and node 3 needs node 0.
fn graph(alloc: Global) -> Result<Digraph, AllocError>
    ensures { IfOk result (λ graph. length graph ≡ 4) }
{
    let first = vec![in alloc; 1]?;
    let second = vec![in alloc; 2]?;
    let last = vec![in alloc; 0]?;
    let needs = vec![in alloc; first, second, Vec::new(alloc), last]?;
    Ok(Digraph::new(needs))
}

/// Node 0 needs node 1, and nodes 1, 2 and 3 are on a cycle.
fn cyclic_graph(alloc: Global) -> Result<Digraph, AllocError> {
    let first = vec![in alloc; 1]?;
    let second = vec![in alloc; 2]?;
    let third = vec![in alloc; 3]?;
    let last = vec![in alloc; 1]?;
    Ok(Digraph::new(vec![in alloc; first, second, third, last]?))
}

/// A node that needs itself.
fn loop_graph(alloc: Global) -> Result<Digraph, AllocError>
    ensures { IfOk result (λ graph. length graph ≡ 1) }
{
    let needs = vec![in alloc; 0]?;
    Ok(Digraph::new(vec![in alloc; needs]?))
}

/// Whether this is the least cycle.
fn is_cycle(sorting: &Sorting, wanted: &[usize]) -> bool {
    match sorting {
        Sorting::Order(_) => false,
        Sorting::Cycle(nodes) => nodes.as_slice() == wanted,
    }
}

/// Whether these are the nodes that are reached from the first, in order.
fn reaches(alloc: Global, graph: &Digraph, wanted: &[usize]) -> Result<bool, AllocError>
    requires { 0 < length graph.now }
{
    Ok(reach(alloc, graph, 0)?.as_slice() == wanted)
}

/// Whether a search finds these nodes.
fn finds(
    alloc: Global,
    reaching: &mut Reaching<'_>,
    node: usize,
    wanted: &[usize],
) -> Result<bool, AllocError>
    requires { node < length reaching.old }
    ensures { reaching.new ≡ reaching.old }
{
    let mut found = reaching.from(alloc, node)?;
    found.sort_unstable();
    Ok(found.as_slice() == wanted)
}
