//! Dyndep texts on graphs of edges, in pieces of every size.

use super::{TWO_OBJECTS, collated};
use crate::build_effect_tests::{LIBRARY, LIBRARY_AFTER, graph_of, listing_of};
use crate::common::{path, value};
use crate::dyndep_file_tests::TWO_STATEMENTS;
use build_effect::Graph;
use collate_core::{RehearseFault, check_edges, rehearse};
use dep_order::Sorting;
use dyndep_file::{LineFault, ReadFault};
use module_maps::Gcc;
use ninja_text::Failure;
use std::alloc::{AllocError, Global};
use std::test::Fail;

/// The listing after the rehearsal of the dyndep text.
pub(crate) fn rehearsed(alloc: Global, graph: &Graph, cuts: &[usize]) -> Result<Vec<u8>, Fail> {
    let name = path(alloc, "./t.dd")?;
    let new = value(rehearse(alloc, TWO_STATEMENTS, &name, graph, cuts))?;
    listing_of(alloc, &new)
}

/// Pieces of one byte, and empty ones between them.
pub(crate) fn bytewise(alloc: Global) -> Result<Vec<usize>, AllocError> {
    let mut cuts = Vec::new(alloc);
    for _ in 0..TWO_STATEMENTS.len() {
        cuts.push(1)?;
        cuts.push(0)?;
    }
    Ok(cuts)
}

#[test]
fn the_effect_is_the_same_for_every_cutting(rt: HostRuntime) -> Result<(), Fail> {
    let alloc = rt.alloc();
    let graph = graph_of(alloc, LIBRARY)?;
    for first in 0..TWO_STATEMENTS.len() + 2 {
        assert!(rt; rehearsed(alloc, &graph, &[first])?.as_slice() == LIBRARY_AFTER);
    }
    Ok(())
}

/// Why the rehearsal of this text in these pieces has no effect, if it has none.
fn refused(
    alloc: Global,
    text: &[u8],
    graph: &Graph,
    cuts: &[usize],
) -> Result<Option<RehearseFault>, Fail> {
    match rehearse(alloc, text, &path(alloc, "t.dd")?, graph, cuts) {
        Ok(_new) => Ok(None),
        Err(Failure::Memory) => Err(Fail::from(AllocError)),
        Err(Failure::Fault(fault)) => Ok(Some(fault)),
    }
}

/// Whether a text is rejected for a bad line of this number, in each of five cuttings.
fn is_bad_at(alloc: Global, text: &[u8], graph: &Graph, number: u64) -> Result<bool, Fail> {
    let cuttings: &[&[usize]] = &[&[], &[25], &[24, 0, 1, 3], &[32], &[60, 1]];
    for cuts in cuttings {
        match refused(alloc, text, graph, cuts)? {
            Some(
                RehearseFault::Read(
                    ReadFault::AtLine {
                        line,
                        fault: LineFault::BadLine,
                    },
                ),
            ) if line == number => {}
            _ => return Ok(false),
        }
    }
    Ok(true)
}

/// Whether a text with a bad line is rejected for it, though its statement has no effect on the
/// graph.
fn line_comes_first(alloc: Global, graph: &Graph) -> Result<bool, Fail> {
    let rule = b"ninja_dyndep_version = 1\nrule cc\n";
    let text = b"ninja_dyndep_version = 1\nbuild x.o: dyndep\nrule cc\n";
    Ok(is_bad_at(alloc, rule, graph, 2)? && is_bad_at(alloc, text, graph, 3)?)
}

/// Whether a text is rejected for what its statement would do to the graph.
fn is_without_effect(alloc: Global, graph: &Graph) -> Result<bool, Fail> {
    let text = b"ninja_dyndep_version = 1\nbuild a.o: dyndep\n";
    let found = refused(alloc, text, graph, &[30])?;
    Ok(matches!(found, Some(RehearseFault::Effect(_))))
}

/// A faulty line counts before what the statements do to the graph, of whatever edges it is.
#[test]
fn a_text_without_an_effect_is_refused_at_its_line_or_for_the_graph(
    rt: HostRuntime,
) -> Result<(), Fail> {
    let alloc = rt.alloc();
    let rule = b"ninja_dyndep_version = 1\nrule cc\n";
    assert!(rt; is_bad_at(alloc, rule, &graph_of(alloc, b"")?, 2)?);
    let graph = graph_of(alloc, LIBRARY)?;
    assert!(rt; line_comes_first(alloc, &graph)?);
    assert!(rt; is_without_effect(alloc, &graph)?);
    Ok(())
}

/// An order of the library's edges after the dyndep file of a target with both objects, or their
/// least cycle.
pub(crate) fn checked_order(alloc: Global) -> Result<Sorting, Fail> {
    let graph = graph_of(alloc, LIBRARY)?;
    let target = collated::<Gcc>(alloc, TWO_OBJECTS, &[], None)?;
    value(check_edges(alloc, &target, &path(alloc, "t.dd")?, &graph))
}
