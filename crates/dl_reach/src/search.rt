// The plain search: from a node along the edges, to each node once.
ghost use Rattle.std.specs.Prelude.{◌≡◌, ℕ, ◌+◌, ◌-◌, ◌^◌, ◌<◌, ◌≤◌, ◌↔◌, [], ◌∷◌, length, map, IfOk, OnOk, All, Contains};
ghost use Rattle.std.specs.List.Sorted.{IsNonDecreasingBy, IsStrictlyIncreasing};
ghost use Rattle.dl_reach.specs.Chain.{Chain};
ghost use Rattle.dl_reach.specs.Digraph.{max_nodes, EndsBelow, Leads};
ghost use Rattle.dl_reach.specs.Search.{IsMarked, AreMarked, Marks};

use crate::edges::edges_from;
use std::alloc::{AllocError, Global};

/// For each node whether a chain of edges leads to it.
pub fn reached(
    alloc: Global,
    nodes: u32,
    edges: &[(u32, u32)],
    from: u32,
) -> Result<Vec<bool>, AllocError>
    requires sorted { IsNonDecreasingBy (λ e. e.0) edges.now }
    requires ends { EndsBelow nodes edges.now }
    requires few { nodes ≤ max_nodes }
    requires in_range { from < nodes }
    ensures len { IfOk result (λ seen. length seen.items ≡ nodes) }
    ensures exact { IfOk result
        (λ seen. (node : ℕ) → IsMarked seen.items node ↔ Chain (Leads edges.now) from node) }
{
    let mut seen = vec![in alloc; false; nodes as usize]?;
    let mut found = Vec::new(alloc);
    mark(from, &mut seen, &mut found)?;
    let mut next = 0;
    while next < found.len() {
        mark_ends(edges_from(edges, found[next]), &mut seen, &mut found)?;
        next += 1;
    }
    Ok(seen)
}

/// Marks the second nodes of the edges.
fn mark_ends(
    edges: &[(u32, u32)],
    seen: &mut [bool],
    found: &mut Vec<u32>,
) -> Result<(), AllocError>
    requires ends { All (λ e. e.1 < length seen.old) edges.now }
    requires marked { AreMarked seen.old found.old.items }
    ensures { OnOk result
        (Marks (map (λ e. e.1) edges.now) seen.old found.old.items seen.new found.new.items) }
{
    for edge in edges {
        mark(edge.1, seen, found)?;
    }
    Ok(())
}

/// Marks a node, and puts it at the end of the found ones where it was not marked.
fn mark(node: u32, seen: &mut [bool], found: &mut Vec<u32>) -> Result<(), AllocError>
    requires in_range { node < length seen.old }
    requires marked { AreMarked seen.old found.old.items }
    ensures { OnOk result (Marks (node ∷ []) seen.old found.old.items seen.new found.new.items) }
{
    if !seen[node as usize] {
        found.push(node)?;
        seen[node as usize] = true;
    }
    Ok(())
}

/// The marked nodes, ascending.
pub fn marked_nodes(alloc: Global, seen: &[bool]) -> Result<Vec<u32>, AllocError>
    requires { length seen.now ≤ max_nodes }
    ensures ascending { IfOk result (λ nodes. IsStrictlyIncreasing nodes.items) }
    ensures exact { IfOk result
        (λ nodes. (node : ℕ) → Contains nodes.items node ↔ IsMarked seen.now node) }
{
    let mut nodes = Vec::new(alloc);
    for (node, mark) in seen.iter().enumerate() {
        if *mark {
            nodes.push(node as u32)?;
        }
    }
    Ok(nodes)
}
