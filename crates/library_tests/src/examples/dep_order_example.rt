//! Nodes are put in order, or their least cycle is found.
ghost use Rattle.std.specs.Prelude.{◌<◌};

use dep_order::{Digraph, Sorting, order};
use std::alloc::{AllocError, Global};
use std::test::Fail;

/// Node 0 needs node 2, and node 2 needs node 1 and what is given.
fn sorted(alloc: Global, further: usize) -> Result<Sorting, AllocError>
    requires { further < 3 }
{
    let first = vec![in alloc; 2]?;
    let third = vec![in alloc; 1, further]?;
    let graph = Digraph::new(vec![in alloc; first, Vec::new(alloc), third]?);
    order(alloc, &graph)
}

#[test]
fn nodes_are_in_order_or_on_a_cycle(rt: HostRuntime) -> Result<(), Fail> {
    let order = Sorting::Order(vec![in rt.alloc(); 1, 2, 0]?);
    assert!(rt; sorted(rt.alloc(), 1)? == order);
    let cycle = Sorting::Cycle(vec![in rt.alloc(); 0, 2]?);
    assert!(rt; sorted(rt.alloc(), 0)? == cycle);
    Ok(())
}
