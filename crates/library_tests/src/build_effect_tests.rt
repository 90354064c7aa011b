//! Edges of a caller's own, and the order of edges after an effect. The results for edge lists,
//! effects and orders are rows of `tests/rows`.
ghost use Rattle.std.specs.Prelude.{◌≡◌, ◌≢◌, [], All, IfOk, OnOk};

mod growths;
mod many_files;

use crate::common::{path, value};
use crate::dyndep_file_tests::TWO_STATEMENTS;
use build_effect::{Edge, Graph, apply, edge_order, listing_write};
use dep_order::Sorting;
use dyndep_file::Dyndep;
use ninja_text::{Counted, Path};
use std::alloc::Global;
use std::test::Fail;

/// The compilations of both objects, which name `t.dd`, and a library of both.
pub(crate) const LIBRARY: &[u8] =
    b"build a.o: cxx a.cpp || t.dd\n  dyndep = t.dd\nbuild b.o: cxx b.cpp || t.dd\n  dyndep = t.dd\nbuild lib: ar a.o b.o\n";

/// The same edges after the effect of the dyndep text.
pub(crate) const LIBRARY_AFTER: &[u8] =
    b"build a.o | mod/A.bmi: cxx a.cpp | mod/B.bmi || t.dd\n  dyndep = t.dd\n  restat = 1\nbuild b.o | mod/B.bmi: cxx b.cpp || t.dd\n  dyndep = t.dd\n  restat = 1\nbuild lib: ar a.o b.o\n";

/// The graph of an edge list.
pub(crate) fn graph_of(alloc: Global, listing: &[u8]) -> Result<Graph, Fail> {
    value(Graph::of(alloc, listing))
}

/// An edge with an output and no other path.
fn short_edge(alloc: Global) -> Result<Edge, Fail>
    ensures { IfOk result (λ edge. edge.outputs ≢ []) }
{
    let rule = Vec::from_slice(alloc, b"cxx")?;
    Ok(Edge {
        rule,
        outputs: vec![in alloc; path(alloc, "a.o")?]?,
        implicit_outputs: Vec::new(alloc),
        inputs: Vec::new(alloc),
        implicit_inputs: Vec::new(alloc),
        order_only: Vec::new(alloc),
        dyndep: None,
        restat: true,
    })
}

/// Edges: one, with every part that an edge can have.
pub(crate) fn whole_edge(alloc: Global) -> Result<Vec<Edge>, Fail>
    ensures { IfOk result (λ edges. All (λ e. e.outputs ≢ []) edges.items) }
{
    let mut edge = short_edge(alloc)?;
    add_paths(alloc, &mut edge)?;
    Ok(vec![in alloc; edge]?)
}

/// Adds a path to each list of the edge that has none, and names the dyndep file.
fn add_paths(alloc: Global, edge: &mut Edge) -> Result<(), Fail>
    ensures { OnOk result (edge.new.outputs ≡ edge.old.outputs) }
{
    edge.implicit_outputs.push(path(alloc, "a.d")?)?;
    edge.inputs.push(path(alloc, "a.cpp")?)?;
    edge.implicit_inputs.push(path(alloc, "a.h")?)?;
    edge.order_only.push(path(alloc, "t.dd")?)?;
    edge.dyndep = Some(path(alloc, "t.dd")?);
    Ok(())
}

/// The edge list of that edge.
pub(crate) const WHOLE_EDGE: &[u8] =
    b"build a.o | a.d: cxx a.cpp | a.h || t.dd\n  dyndep = t.dd\n  restat = 1\n";

/// The edge list of a graph, which is no longer than that of the library after the effect. The
/// vector has its capacity first, so that the writer does not fail.
pub(crate) fn listing_of(alloc: Global, graph: &Graph) -> Result<Vec<u8>, Fail> {
    let mut out = Counted::new(Vec::with_capacity(alloc, LIBRARY_AFTER.len())?);
    value(listing_write(alloc, graph, &mut out))?;
    Ok(out.into_inner())
}

/// The statements of the dyndep text.
fn statements(alloc: Global) -> Result<Dyndep, Fail> {
    value(Dyndep::of(alloc, TWO_STATEMENTS))
}

/// The library's edges after the effect of the statements.
fn applied(alloc: Global) -> Result<Graph, Fail> {
    let graph = graph_of(alloc, LIBRARY)?;
    let dyndep = statements(alloc)?;
    value(apply(alloc, &graph, &path(alloc, "t.dd")?, &dyndep))
}

/// An order of the library's edges after the effect of the statements, or their least cycle.
pub(crate) fn order_after_effect(alloc: Global) -> Result<Sorting, Fail> {
    Ok(edge_order(alloc, &applied(alloc)?)?)
}

/// Whether the edges have this order.
pub(crate) fn is_order(sorting: &Sorting, wanted: &[usize]) -> bool {
    match sorting {
        Sorting::Order(indexes) => indexes.as_slice() == wanted,
        Sorting::Cycle(_) => false,
    }
}
