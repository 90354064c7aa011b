//! Finds the least cycle: first its first node, by a search or by strongly connected components
//! (M. Sharir, A strong-connectivity algorithm and its applications in data flow analysis,
//! Computers and Mathematics with Applications 7, 1981), then its length, by levels, then its nodes
//! one by one.
ghost use Rattle.std.specs.Prelude.{◌<◌, ◌≤◌, ◌↔◌, Some, length, All, IfOk, IsTrue};
ghost use Rattle.dep_order.specs.Prelude.{first_of, lists, Numbers, NodeNeeds, NeedsAreNodes};
ghost use Rattle.dep_order.specs.Prelude.{IsCycle, HasCycle, IsLeastCycle, IsLeastFromIfAny};
ghost use Rattle.dep_order.specs.Prelude.{IsLeastAt, IsFewest, SomeIsAway, AreUsers, AreComponents};
ghost use Rattle.dep_order.specs.Prelude.{SharesComponent};

use crate::ordering::row_of;
use crate::searching::{mark_row, postorder_of, steps_from};
use std::alloc::{AllocError, Global};

/// Returns the least cycle of a digraph with a cycle.
pub fn least_cycle(
    alloc: Global,
    needs: &[&[usize]],
    users: &[&[usize]],
) -> Result<Vec<usize>, AllocError>
    requires nodes { NeedsAreNodes (lists needs.now) }
    requires users { AreUsers (lists needs.now) (lists users.now) }
    requires cycle { HasCycle (NodeNeeds (lists needs.now)) }
    ensures { IfOk result (λ cycle. IsLeastCycle (NodeNeeds (lists needs.now)) cycle.items) }
{
    // If many nodes are on cycles, the first suspect usually is, and one search is enough.
    let suspect = first_suspect(needs, users);
    if let Some(cycle) = cycle_through(alloc, needs, users, suspect)? {
        return Ok(cycle);
    }
    // Otherwise the cycle begins at the first node that needs a node of its own component.
    let components = components_of(alloc, needs, users)?;
    for first in 0..needs.len() {
        if shares_component(row_of(needs, first), components.as_slice(), first) {
            return match cycle_through(alloc, needs, users, first)? {
                Some(cycle) => Ok(cycle),
                None => unreachable!(),
            };
        }
    }
    unreachable!()
}

/// Returns the first node that has both needs and users. No cycle contains a lower one.
fn first_suspect(needs: &[&[usize]], users: &[&[usize]]) -> usize
    requires nodes { NeedsAreNodes (lists needs.now) }
    requires users { AreUsers (lists needs.now) (lists users.now) }
    requires cycle { HasCycle (NodeNeeds (lists needs.now)) }
    ensures node { result < length needs.now }
    ensures none_lower { (cycle : Numbers)
        → IsCycle (NodeNeeds (lists needs.now)) cycle
        → result ≤ first_of cycle }
{
    for node in 0..needs.len() {
        if !row_of(needs, node).is_empty() && !row_of(users, node).is_empty() {
            return node;
        }
    }
    unreachable!()
}

/// Returns the least cycle that begins with this node, if there is one.
fn cycle_through(
    alloc: Global,
    needs: &[&[usize]],
    users: &[&[usize]],
    first: usize,
) -> Result<Option<Vec<usize>>, AllocError>
    requires nodes { NeedsAreNodes (lists needs.now) }
    requires users { AreUsers (lists needs.now) (lists users.now) }
    requires first { first < length needs.now }
    ensures { IfOk result (IsLeastFromIfAny (NodeNeeds (lists needs.now)) first) }
{
    let distances = steps_from(alloc, users, first)?;
    let steps = distances.as_slice();
    let Some(count) = fewest(row_of(needs, first), steps) else {
        return Ok(None);
    };
    let mut cycle = vec![in alloc; first]?;
    let mut node = first;
    for chosen in 0..count {
        node = least_at(row_of(needs, node), steps, count - chosen);
        cycle.push(node)?;
    }
    Ok(Some(cycle))
}

/// Returns the smallest distance of a node of the row.
fn fewest(row: &[usize], steps: &[Option<usize>]) -> Option<usize>
    requires { All (λ node. node < length steps.now) row.now }
    ensures { IsFewest row.now steps.now result }
{
    row.iter().filter_map(|node| steps[*node]).min()
}

/// Returns the least node of the row at this distance. There has to be one.
fn least_at(row: &[usize], steps: &[Option<usize>], count: usize) -> usize
    requires nodes { All (λ node. node < length steps.now) row.now }
    requires some { SomeIsAway row.now steps.now count }
    ensures { IsLeastAt row.now steps.now count result }
{
    let nodes = row.iter().copied();
    let least = nodes.filter(|node| steps[*node] == Some(count)).min();
    match least {
        Some(node) => node,
        None => unreachable!(),
    }
}

/// Returns the number of the component of each node. Two nodes have the same number if and only if
/// each leads to the other.
pub fn components_of(
    alloc: Global,
    needs: &[&[usize]],
    users: &[&[usize]],
) -> Result<Vec<Option<usize>>, AllocError>
    requires nodes { NeedsAreNodes (lists needs.now) }
    requires users { AreUsers (lists needs.now) (lists users.now) }
    ensures { IfOk result (λ components. AreComponents (lists needs.now) components.items) }
{
    let mut postorder = postorder_of(alloc, needs)?;
    let mut components: Vec<Option<usize>> = vec![in alloc; None; users.len()]?;
    let mut waiting = Vec::new(alloc);
    while let Some(root) = postorder.pop() {
        // The component of the root: the nodes without a number that lead to it through such nodes.
        let number = postorder.len();
        mark_row(&[root], number, &mut components, &mut waiting)?;
        while let Some(node) = waiting.pop() {
            mark_row(row_of(users, node), number, &mut components, &mut waiting)?;
        }
    }
    Ok(components)
}

/// Returns whether a node of the row is in the node's component.
pub fn shares_component(row: &[usize], components: &[Option<usize>], node: usize) -> bool
    requires row { All (λ other. other < length components.now) row.now }
    requires node { node < length components.now }
    ensures { IsTrue result ↔ SharesComponent row.now components.now node }
{
    for other in row {
        if components[*other] == components[node] {
            return true;
        }
    }
    false
}
