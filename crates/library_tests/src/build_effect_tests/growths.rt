//! Edges of a caller's own, and edges in order after an effect, while `tests/growths.py` fails each
//! allocation in turn. A test returns `AllocError` or `Failure::Memory` if and only if a call did.
//! Every other result has to be the example's.

use super::{WHOLE_EDGE, is_order, listing_of, order_after_effect, whole_edge};
use crate::common::value;
use build_effect::Graph;
use std::alloc::Global;
use std::test::Fail;

/// Whether this is the edge list of the graph, to a writer and in memory.
fn has_listing(alloc: Global, graph: &Graph, listing: &[u8]) -> Result<bool, Fail> {
    Ok(
        listing_of(alloc, graph)?.as_slice() == listing
            && value(graph.to_text(alloc))?.as_slice() == listing,
    )
}

#[test]
fn a_graph_of_the_callers_own_edges(rt: HostRuntime) -> Result<(), Fail> {
    let alloc = rt.alloc();
    let graph = value(Graph::new(alloc, whole_edge(alloc)?))?;
    assert!(rt; has_listing(alloc, &graph, WHOLE_EDGE)?);
    Ok(())
}

#[test]
fn edges_after_an_effect(rt: HostRuntime) -> Result<(), Fail> {
    assert!(rt; is_order(&order_after_effect(rt.alloc())?, &[1, 0, 2]));
    Ok(())
}
