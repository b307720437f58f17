// The order in which rows are united: Tarjan's depth-first search for strong components.
ghost use Rattle.std.specs.Prelude.{◌≡◌, ℕ, ◌+◌, ◌^◌, ◌<◌, ◌≤◌, IfOk, All, vec_len};
ghost use Rattle.std.specs.List.Sorted.{IsNonDecreasingBy};
ghost use Rattle.dl_reach.specs.Digraph.{max_nodes, EndsBelow};

use crate::edges::{edges_from, first_from};
use std::alloc::{AllocError, Global};

/// Pairs of nodes along which to unite rows, such that each row is whole after one pass. Nothing rests on
/// that but speed, so it is not proved.
pub fn order(alloc: Global, nodes: u32, edges: &[(u32, u32)]) -> Result<Vec<(u32, u32)>, AllocError>
    requires few { nodes ≤ max_nodes }
    requires ends { EndsBelow nodes edges.now }
    requires sorted { IsNonDecreasingBy (λ e. e.0) edges.now }
    ensures { IfOk result (λ pairs. EndsBelow nodes pairs.items) }
{
    let mut search = Search::new(alloc, nodes)?;
    for root in 0..nodes {
        if search.depths[root as usize] == 0 {
            search.run(root, edges)?;
        }
    }
    let Search { pairs, .. } = search;
    Ok(pairs)
}

/// A depth-first search over nodes and edges.
#[derive(Drop)]
struct Search {
    nodes: u32,
    // for each node the number of the edge that comes next
    next: Vec<usize>,
    // for each node 0 before it is reached, then how many nodes were pending with it, and at last `CLOSED`
    depths: Vec<usize>,
    // for each node the pending node with the least depth that is known to be reached from it
    lowest: Vec<u32>,
    // the nodes that were reached, and whose component is not whole yet
    pending: Vec<u32>,
    // the nodes from the root to the one whose edges are followed
    path: Vec<u32>,
    // the pairs so far
    pairs: Vec<(u32, u32)>,
    ghost few: { nodes ≤ max_nodes },
    ghost next_len: { vec_len next ≡ nodes },
    ghost depths_len: { vec_len depths ≡ nodes },
    ghost lowest_len: { vec_len lowest ≡ nodes },
    ghost lowest_below: { All (λ node. node < nodes) lowest.items },
    ghost pending_below: { All (λ node. node < nodes) pending.items },
    ghost path_below: { All (λ node. node < nodes) path.items },
    ghost pairs_below: { EndsBelow nodes pairs.items },
}

/// The depth of a node whose component is closed.
const CLOSED: usize = usize::MAX;

impl Search {
    /// A search that has reached no node.
    fn new(alloc: Global, nodes: u32) -> Result<Search, AllocError>
        requires { nodes ≤ max_nodes }
        ensures { IfOk result (λ search. search.nodes ≡ nodes) }
    {
        Ok(Search {
            nodes,
            next: vec![in alloc; 0; nodes as usize]?,
            depths: vec![in alloc; 0; nodes as usize]?,
            lowest: vec![in alloc; 0; nodes as usize]?,
            pending: Vec::new(alloc),
            path: Vec::new(alloc),
            pairs: Vec::new(alloc),
        })
    }

    /// Searches from a node. Each turn follows an edge or leaves a node.
    fn run(&mut self, root: u32, edges: &[(u32, u32)]) -> Result<(), AllocError>
        requires root { root < self.old.nodes }
        requires ends { EndsBelow self.old.nodes edges.now }
        requires sorted { IsNonDecreasingBy (λ e. e.0) edges.now }
        ensures { self.new.nodes ≡ self.old.nodes }
    {
        self.enter(root, edges)?;
        for _ in 0..edges.len() + self.nodes as usize {
            let Some(node) = self.path.last().copied() else {
                break;
            };
            self.turn(node, edges)?;
        }
        Ok(())
    }

    /// Follows the next edge of the last node of the path, or leaves that node.
    fn turn(&mut self, node: u32, edges: &[(u32, u32)]) -> Result<(), AllocError>
        requires node { node < self.old.nodes }
        requires ends { EndsBelow self.old.nodes edges.now }
        requires sorted { IsNonDecreasingBy (λ e. e.0) edges.now }
        ensures { self.new.nodes ≡ self.old.nodes }
    {
        let at = self.next[node as usize];
        if at >= edges.len() || edges[at].0 != node {
            let _ = self.path.pop();
            return self.leave(node, edges);
        }
        self.next[node as usize] = at + 1;
        let to = edges[at].1;
        if self.depths[to as usize] == 0 {
            return self.enter(to, edges);
        }
        self.lower(node, to);
        Ok(())
    }

    /// Reaches a node: it is pending, and the last of the path.
    fn enter(&mut self, node: u32, edges: &[(u32, u32)]) -> Result<(), AllocError>
        requires node { node < self.old.nodes }
        requires sorted { IsNonDecreasingBy (λ e. e.0) edges.now }
        ensures { self.new.nodes ≡ self.old.nodes }
    {
        self.pending.push(node)?;
        self.path.push(node)?;
        self.depths[node as usize] = self.pending.len();
        self.next[node as usize] = first_from(edges, node);
        self.lowest[node as usize] = node;
        Ok(())
    }

    /// Takes the node as reached from the other, where it is lower than what was.
    fn lower(&mut self, node: u32, reached: u32)
        requires node { node < self.old.nodes }
        requires reached { reached < self.old.nodes }
        ensures { self.new.nodes ≡ self.old.nodes }
    {
        let lowest = self.lowest[node as usize];
        if self.depths[reached as usize] < self.depths[lowest as usize] {
            self.lowest[node as usize] = reached;
        }
    }

    /// Ends the search of the edges of a node.
    fn leave(&mut self, node: u32, edges: &[(u32, u32)]) -> Result<(), AllocError>
        requires node { node < self.old.nodes }
        requires ends { EndsBelow self.old.nodes edges.now }
        requires sorted { IsNonDecreasingBy (λ e. e.0) edges.now }
        ensures { self.new.nodes ≡ self.old.nodes }
    {
        let lowest = self.lowest[node as usize];
        if lowest == node {
            let depth = self.depths[node as usize];
            self.close(depth, edges)?;
        }
        if let Some(parent) = self.path.last().copied() {
            self.lower(parent, lowest);
        }
        Ok(())
    }

    /// Closes the component of the pending nodes from a depth on: first the edges of its nodes, which make the
    /// row of its first node whole, and then each node with a lower one.
    fn close(&mut self, depth: usize, edges: &[(u32, u32)]) -> Result<(), AllocError>
        requires ends { EndsBelow self.old.nodes edges.now }
        requires sorted { IsNonDecreasingBy (λ e. e.0) edges.now }
        ensures { self.new.nodes ≡ self.old.nodes }
    {
        let start = depth.saturating_sub(1).min(self.pending.len());
        self.push_edges(start, edges)?;
        for i in start..self.pending.len() {
            let node = self.pending[i];
            self.pairs.push((node, self.lowest[node as usize]))?;
            self.depths[node as usize] = CLOSED;
        }
        self.pending.truncate(start);
        Ok(())
    }

    /// Adds the edges of the pending nodes from an index on, those of the last reached first.
    fn push_edges(&mut self, start: usize, edges: &[(u32, u32)]) -> Result<(), AllocError>
        requires ends { EndsBelow self.old.nodes edges.now }
        requires sorted { IsNonDecreasingBy (λ e. e.0) edges.now }
        ensures nodes { self.new.nodes ≡ self.old.nodes }
        ensures pending { self.new.pending ≡ self.old.pending }
    {
        for i in (start..self.pending.len()).rev() {
            self.pairs
                .extend_from_slice(edges_from(edges, self.pending[i]))?;
        }
        Ok(())
    }
}
