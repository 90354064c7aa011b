//! Laws about orders and cycles. A law is the contract of a function that does nothing; callers
//! call it to use the law in a proof.
ghost use Rattle.std.specs.Prelude.{◌≡◌, ℕ, List, length};
ghost use Rattle.dep_order.specs.Prelude.{Numbers, NodeNeeds, NeedsAreNodes, IsOrderable};
ghost use Rattle.dep_order.specs.Prelude.{IsLeastOrder, IsCycle, IsLeastCycle};

/// A digraph has at most one order by smallest numbers, and at most one least cycle.
pub fn least_order_and_least_cycle_are_unique()
    ensures order { (graph : List Numbers) (a b : Numbers)
        → IsLeastOrder (length graph) (NodeNeeds graph) a
        → IsLeastOrder (length graph) (NodeNeeds graph) b
        → a ≡ b }
    ensures cycle { (graph : List Numbers) (a b : Numbers)
        → IsLeastCycle (NodeNeeds graph) a
        → IsLeastCycle (NodeNeeds graph) b
        → a ≡ b }
{}

/// A digraph can be ordered if and only if it has no cycle: it has one or the other, and not both.
pub fn a_digraph_has_an_order_or_a_cycle()
    ensures no_cycle { (graph : List Numbers) (cycle : Numbers)
        → IsOrderable (length graph) (NodeNeeds graph)
        → IsCycle (NodeNeeds graph) cycle
        → ⊥ }
    ensures orderable { (graph : List Numbers)
        → NeedsAreNodes graph
        → ((cycle : Numbers) → IsCycle (NodeNeeds graph) cycle → ⊥)
        → IsOrderable (length graph) (NodeNeeds graph) }
{}
