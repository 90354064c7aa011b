//! Digraphs of dependencies: a topological order, the least cycle if there is no order, and what is
//! reachable from a node.
//!
//! Nodes are numbered from 0. [`order`] returns all nodes, each after what it needs, by smallest
//! numbers, or the least cycle. [`reach`] returns all nodes to which chains of needs lead, and
//! [`Reaching`] does so for one node after the other. Each has one clause that says all:
//! `IsSortingOf` (`specs/Sortings.antt`, with `specs/Orders.antt` and `specs/Cycles.antt`), and
//! `IsReach` and `AreReached` (`specs/Needs.antt`). The only error is a failed allocation. The
//! module [`laws`] proves that there is at most one order and at most one least cycle, and that
//! there is an order if and only if there is no cycle.
//!
//! # How it works
//!
//! - `users_of` reverses the needs, by a counting sort into one vector. `order_ready` counts the
//!   missing needs of each node and keeps the nodes that are ready in an ordered set.
//! - If nodes are left over, one search tests whether the first node with needs and users is on a
//!   cycle; then it is the least such node. If it is not, `components_of` numbers the strongly
//!   connected components: a depth-first search with a stack of its own gives a postorder, and from
//!   its end on each root takes the nodes that lead to it. The least node that needs a node of its
//!   own component is the least node on any cycle.
//! - `steps_from` finds the distance of each node from that node by a breadth-first search along
//!   users. `cycle_through` then takes the least node that is one step nearer, at each step.
//! - `Reaching` keeps the nodes that it finds in a sparse set, so that nothing has to be cleared
//!   between two searches.
//!
//! Work grows linearly with the nodes and needs, except for a logarithm in ordering nodes. No
//! function is recursive. The crate depends on std alone. Definitions that only private contracts
//! use are in `specs/inner/`.
//!
//! `must-fail/` has a wrong body of each public function, except for laws, which have no body, for
//! [`Digraph::new`] and [`Reaching::new`], which only fill fields, and for [`reach`], which sorts
//! what [`Reaching::from`] finds.
//!
//! # Dependencies between other things
//!
//! The definitions speak of any relation between numbered things. A caller with a relation of its
//! own builds the digraph so that `NodeNeeds` holds if and only if the relation does, calls
//! [`order`], and transfers the clause with `sorting_same` of `proofs/ForCallers.antt`, which has
//! all lemmas for other crates.
#![tactic(auto)]

mod cycles;
pub mod laws;
mod ordering;
mod searching;

ghost use Rattle.std.specs.Prelude.{◌≡◌, ◌<◌, length, IfOk};
ghost use Rattle.dep_order.specs.Prelude.{rows, NodeNeeds, NeedsAreNodes, IsReach, IsSortingOf};

use cycles::least_cycle;
use ordering::{order_ready, part_slices, row_slices, users_of};
pub use searching::Reaching;
use std::alloc::{AllocError, Global};
use std::marker::Model;

/// A digraph: the nodes that each node needs. Its view is the list of these lists.
#[derive(Drop)]
pub struct Digraph {
    needs: Vec<Vec<usize>>,
}

impl Model for Digraph {
    ghost use Rattle.dep_order.specs.Prelude.{List, Numbers, NeedsAreNodes, rows};

    ghost Value = { List Numbers };

    ghost view = { λ graph. rows graph.needs.items };

    ghost invariant = { λ graph. NeedsAreNodes (rows graph.needs.items) };
}

impl Digraph {
    /// Returns the digraph in which node i needs the nodes of list i. A list may be in any order
    /// and contain a node more than once, and a node may need itself. Each number in a list has to
    /// be that of a node.
    pub fn new(needs: Vec<Vec<usize>>) -> Digraph
        requires { NeedsAreNodes (rows needs.items) }
        ensures { result ≡ rows needs.items }
    {
        Digraph { needs }
    }
}

/// The nodes of a digraph in order, or a cycle if they have no order.
#[derive(Debug, PartialEq, Eq, Drop)]
pub enum Sorting {
    /// All nodes, each once and after all that it needs. Each index has the smallest possible
    /// number.
    Order(Vec<usize>),
    /// A cycle: each node needs the next, and the last needs the first. It begins with the
    /// lowest-numbered node that is on any cycle. It is a shortest cycle through that node, and of
    /// equally short ones the lexicographically first list.
    Cycle(Vec<usize>),
}

/// Returns the order by smallest numbers, or the least cycle if there is no order. Returns an error
/// if an allocation fails.
pub fn order(alloc: Global, graph: &Digraph) -> Result<Sorting, AllocError>
    ensures { IfOk result (IsSortingOf (length graph.now) (NodeNeeds graph.now)) }
{
    let rows = row_slices(alloc, graph.needs.as_slice())?;
    let needs = rows.as_slice();
    let user_parts = users_of(alloc, needs)?;
    let users = part_slices(alloc, &user_parts)?;
    let ordered = order_ready(alloc, needs, users.as_slice())?;
    if ordered.len() == needs.len() {
        return Ok(Sorting::Order(ordered));
    }
    let cycle = least_cycle(alloc, needs, users.as_slice())?;
    Ok(Sorting::Cycle(cycle))
}

/// Returns the node and all nodes to which chains of needs lead from it, in rising order, or an
/// error if an allocation fails.
pub fn reach(alloc: Global, graph: &Digraph, from: usize) -> Result<Vec<usize>, AllocError>
    requires { from < length graph.now }
    ensures { IfOk result (λ reached. IsReach (NodeNeeds graph.now) from reached.items) }
{
    let mut reaching = Reaching::new(alloc, graph)?;
    let mut reached = reaching.from(alloc, from)?;
    reached.sort_unstable();
    Ok(reached)
}
