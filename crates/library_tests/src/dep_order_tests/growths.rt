//! Orders and searches of small graphs, while `tests/growths.py` fails each allocation in turn. The
//! test returns `AllocError` if and only if a call did. Every other result has to be the example's.

ghost use Rattle.std.specs.Prelude.{◌≡◌, length};

use super::{cyclic_graph, finds, graph, is_cycle, loop_graph, reaches};
use dep_order::{Digraph, Reaching, order};
use std::alloc::{AllocError, Global};
use std::test::Fail;

#[test]
fn a_cycle_of_three(rt: HostRuntime) -> Result<(), Fail> {
    let graph = cyclic_graph(rt.alloc())?;
    assert!(rt; is_cycle(&order(rt.alloc(), &graph)?, &[1, 2, 3]));
    Ok(())
}

#[test]
fn reached_nodes(rt: HostRuntime) -> Result<(), Fail> {
    assert!(rt; reaches(rt.alloc(), &loop_graph(rt.alloc())?, &[0])?);
    assert!(rt; reaches(rt.alloc(), &graph(rt.alloc())?, &[0, 1, 2])?);
    Ok(())
}

/// Whether each of two searches of the graph finds what it finds alone.
fn finds_in_turn(alloc: Global, graph: &Digraph) -> Result<bool, AllocError>
    requires { length graph.now ≡ 4 }
{
    let mut reaching = Reaching::new(alloc, graph)?;
    let first = finds(alloc, &mut reaching, 3, &[0, 1, 2, 3])?;
    Ok(first && finds(alloc, &mut reaching, 1, &[1, 2])?)
}

#[test]
fn the_second_of_two_searches_finds_nothing_of_the_first(rt: HostRuntime) -> Result<(), Fail> {
    assert!(rt; finds_in_turn(rt.alloc(), &graph(rt.alloc())?)?);
    Ok(())
}
