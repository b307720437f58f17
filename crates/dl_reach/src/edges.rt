// Lists of edges, sorted by their first node.
ghost use Rattle.std.specs.Prelude.{◌≡◌, ℕ, ◌+◌, ◌-◌, ◌^◌, ◌<◌, ◌≤◌, ◌↔◌, length, Contains};
ghost use Rattle.std.specs.List.{AllWithin};
ghost use Rattle.std.specs.List.Sorted.{IsNonDecreasingBy};

/// The edges that leave the node.
pub fn edges_from(edges: &[(u32, u32)], node: u32) -> &[(u32, u32)]
    requires sorted { IsNonDecreasingBy (λ e. e.0) edges.now }
    requires small { node + 1 < 2 ^ 32 }
    ensures { (e : ℕ × ℕ) → Contains result.now e ↔ (Contains edges.now e × (e.0 ≡ node)) }
{
    let start = first_from(edges, node);
    let end = first_from(edges, node + 1);
    &edges[start..end]
}

/// The number of the first edge that leaves this node or a later one.
pub fn first_from(edges: &[(u32, u32)], node: u32) -> usize
    requires { IsNonDecreasingBy (λ e. e.0) edges.now }
    ensures bound { result ≤ length edges.now }
    ensures before { AllWithin (λ e. e.0 < node) edges.now 0 result }
    ensures after { AllWithin (λ e. node ≤ e.0) edges.now result (length edges.now) }
{
    edges.partition_point(|edge| edge.0 < node)
}
