//! Searches: from one node after the other, depth-first, breadth-first by levels, and the marks of
//! the nodes that a search finds.
ghost use Rattle.std.specs.Prelude.{◌≡◌, ◌<◌, length, All, IfOk, OnOk};
ghost use Rattle.dep_order.specs.Prelude.{lists, NodeNeeds, NeedsAreNodes, AreReached, AreFound};
ghost use Rattle.dep_order.specs.Prelude.{IsRowFound, IsPostorder, IsFirstUnseen, AreSteps};
ghost use Rattle.dep_order.specs.Prelude.{AreMarked};

use crate::Digraph;
use crate::ordering::row_of;
use std::alloc::{AllocError, Global};
use std::marker::Model;

/// A search for the nodes that are reachable from nodes of a digraph. It reuses its workspace, so
/// the work for a node grows with the nodes it reaches and their needs, and not with the digraph.
/// Its view is the digraph.
#[derive(Drop)]
pub struct Reaching<'g> {
    graph: &'g Digraph,
    /// The index of each node among the found nodes. A node is found if it is at its index, so an
    /// earlier search leaves nothing to be cleared (P. Briggs and L. Torczon, An efficient
    /// representation for sparse sets, ACM Letters on Programming Languages and Systems 2, 1993).
    indexes: Vec<usize>,
}

impl<'g> Model for Reaching<'g> {
    ghost use Rattle.std.specs.Prelude.{◌≡◌, List, length};
    ghost use Rattle.dep_order.specs.Prelude.{Numbers};

    ghost Value = { List Numbers };

    ghost view = { λ reaching. reaching.graph.now };

    ghost invariant = { λ reaching. length reaching.indexes.items ≡ length reaching.graph.now };
}

impl<'g> Reaching<'g> {
    /// Returns a search in the digraph, or an error if an allocation fails.
    pub fn new(alloc: Global, graph: &'g Digraph) -> Result<Reaching<'g>, AllocError>
        ensures { IfOk result (λ reaching. reaching ≡ graph.now) }
    {
        let indexes = vec![in alloc; 0; graph.needs.len()]?;
        Ok(Reaching { graph, indexes })
    }

    /// Returns the node and all nodes to which chains of needs lead from it, each once, in no
    /// particular order. Returns an error if an allocation fails. The search can be used again
    /// afterwards.
    pub fn from(&mut self, alloc: Global, node: usize) -> Result<Vec<usize>, AllocError>
        requires { node < length self.old }
        ensures same { self.new ≡ self.old }
        ensures reached { IfOk result
            (λ reached. AreReached (NodeNeeds self.old) node reached.items) }
    {
        // (most searches find a few nodes)
        let mut found = Vec::with_capacity(alloc, 16)?;
        found.push(node)?;
        self.indexes[node] = 0;
        let graph = self.graph;
        let mut next = 0;
        'search: while next < found.len() {
            let row = &graph.needs[found[next]];
            find_row(row, &mut self.indexes, &mut found)?;
            next += 1;
        }
        Ok(found)
    }
}

/// Appends the nodes of the row that are not found yet.
fn find_row(
    row: &[usize],
    indexes: &mut Vec<usize>,
    found: &mut Vec<usize>,
) -> Result<(), AllocError>
    requires row { All (λ node. node < length indexes.old.items) row.now }
    requires found { AreFound indexes.old.items found.old.items }
    ensures as_many { length indexes.new.items ≡ length indexes.old.items }
    ensures found { OnOk result
        (IsRowFound row.now indexes.old.items found.old.items indexes.new.items found.new.items) }
{
    for node in row {
        let index = indexes[*node];
        let is_found = index < found.len() && found[index] == *node;
        if !is_found {
            indexes[*node] = found.len();
            found.push(*node)?;
        }
    }
    Ok(())
}

/// Returns the nodes in the postorder of a depth-first search along needs.
pub fn postorder_of(alloc: Global, needs: &[&[usize]]) -> Result<Vec<usize>, AllocError>
    requires { NeedsAreNodes (lists needs.now) }
    ensures { IfOk result (λ postorder. IsPostorder (lists needs.now) postorder.items) }
{
    let mut seen = vec![in alloc; false; needs.len()]?;
    let mut scanned = vec![in alloc; 0; needs.len()]?;
    let mut path = Vec::new(alloc);
    let mut left = Vec::new(alloc);
    for root in 0..needs.len() {
        if seen[root] {
            continue;
        }
        seen[root] = true;
        path.push(root)?;
        while let Some(node) = path.pop() {
            let row = row_of(needs, node);
            match first_unseen(row, scanned[node], seen.as_slice()) {
                Some(index) => {
                    scanned[node] = index + 1;
                    seen[row[index]] = true;
                    path.push(node)?;
                    path.push(row[index])?;
                }
                None => left.push(node)?,
            }
        }
    }
    Ok(left)
}

/// Returns the first index, from this one on, at which the row has a node that was not seen.
fn first_unseen(row: &[usize], from: usize, seen: &[bool]) -> Option<usize>
    requires { All (λ node. node < length seen.now) row.now }
    ensures { IsFirstUnseen row.now seen.now from result }
{
    for index in from..row.len() {
        if !seen[row[index]] {
            return Some(index);
        }
    }
    None
}

/// Returns the distance from the start to each node. Each node leads to the nodes of its list.
pub fn steps_from(
    alloc: Global,
    slices: &[&[usize]],
    start: usize,
) -> Result<Vec<Option<usize>>, AllocError>
    requires nodes { NeedsAreNodes (lists slices.now) }
    requires start { start < length slices.now }
    ensures { IfOk result
        (λ steps. AreSteps (length slices.now) (NodeNeeds (lists slices.now)) start steps.items) }
{
    let mut steps: Vec<Option<usize>> = vec![in alloc; None; slices.len()]?;
    steps[start] = Some(0);
    let mut frontier = vec![in alloc; start]?;
    let mut count = 0;
    'levels: while !frontier.is_empty() {
        count += 1;
        // The nodes to which the frontier leads and which had no distance.
        let mut next = Vec::new(alloc);
        for node in &frontier {
            mark_row(row_of(slices, *node), count, &mut steps, &mut next)?;
        }
        frontier = next;
    }
    Ok(steps)
}

/// Gives the mark to each node of the row that has none, and appends these nodes to `next`.
pub fn mark_row(
    row: &[usize],
    mark: usize,
    marks: &mut Vec<Option<usize>>,
    next: &mut Vec<usize>,
) -> Result<(), AllocError>
    requires { All (λ node. node < length marks.old.items) row.now }
    ensures { OnOk result
        (AreMarked row.now mark marks.old.items marks.new.items next.old.items next.new.items) }
{
    for node in row {
        if marks[*node].is_none() {
            next.push(*node)?;
            marks[*node] = Some(mark);
        }
    }
    Ok(())
}
