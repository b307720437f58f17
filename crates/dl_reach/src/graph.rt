ghost use Rattle.std.specs.Prelude.{◌≡◌, ℕ, ◌+◌, ◌<◌, ◌≤◌, ◌↔◌, length, List, IfOk, OnOk, IsTrue, All, Contains};
ghost use Rattle.std.specs.List.Sorted.{IsNonDecreasingBy, IsStrictlyIncreasing};
ghost use Rattle.dl_reach.specs.Chain.{Chain};
ghost use Rattle.dl_reach.specs.Digraph.{Digraph, max_nodes, IsEdge, EndsBelow};

use crate::closure::Closure;
use crate::memory::NoMemory;
use crate::order::order;
use crate::search::{marked_nodes, reached};
use std::alloc::{AllocError, Global};
use std::marker::Model;

/// The most nodes that a graph may have.
pub const MAX_NODES: u32 = 16_384;

/// Whether a graph may have so many nodes: at most `MAX_NODES`.
pub fn fits(nodes: u32) -> bool
    ensures { IsTrue result ↔ (nodes ≤ max_nodes) }
{
    nodes <= MAX_NODES
}

/// Whether both ends of each edge are nodes of a graph of so many.
pub fn ends_below(nodes: u32, edges: &[(u32, u32)]) -> bool
    ensures { IsTrue result ↔ EndsBelow nodes edges.now }
{
    edges.iter().all(|edge| edge.0 < nodes && edge.1 < nodes)
}

/// A directed graph of at most `MAX_NODES` nodes, with its edges sorted by their first node.
#[derive(Drop)]
pub struct Graph {
    nodes: u32,
    edges: Vec<(u32, u32)>,
}

impl Model for Graph {
    ghost Value = { Digraph };

    ghost view = { λ g. record { nodes = g.nodes; edges = g.edges.items } };

    ghost invariant = { λ g. record {
      few : g.nodes ≤ max_nodes;
      ends : EndsBelow g.nodes g.edges.items;
      sorted : IsNonDecreasingBy (λ e. e.0) g.edges.items;
    } };
}

impl Graph {
    /// The graph of these nodes and edges, whatever their order, and however often each edge comes.
    /// Fails only for want of memory. `fits` tests the nodes, and `ends_below` the edges.
    pub fn new(alloc: Global, nodes: u32, edges: &[(u32, u32)]) -> Result<Graph, NoMemory>
        requires few { nodes ≤ max_nodes }
        requires in_range { EndsBelow nodes edges.now }
        ensures nodes { IfOk result (λ g. g.nodes ≡ nodes) }
        ensures edges { IfOk result
            (λ g. (a b : ℕ) → IsEdge g a b ↔ Contains edges.now (a, b)) }
    {
        let mut sorted = Vec::from_slice(alloc, edges)?;
        sorted.sort_unstable_by_key(|edge| edge.0);
        Ok(Graph {
            nodes,
            edges: sorted,
        })
    }

    /// The nodes to which a chain of edges leads from this one, ascending. The empty chain counts.
    /// Fails only for want of memory.
    pub fn reach(&self, alloc: Global, from: u32) -> Result<Vec<u32>, NoMemory>
        requires { from < self.now.nodes }
        ensures ascending { IfOk result (λ found. IsStrictlyIncreasing found.items) }
        ensures exact { IfOk result
            (λ found. (node : ℕ) → Contains found.items node ↔ Chain (IsEdge self.now) from node) }
    {
        let seen = reached(alloc, self.nodes, &self.edges, from)?;
        Ok(marked_nodes(alloc, &seen)?)
    }

    /// Which nodes chains of edges lead to, from each node at once. Fails only for want of memory.
    pub fn closure(&self, alloc: Global) -> Result<Closure, NoMemory>
        ensures { IfOk result (λ closure. closure ≡ self.now) }
    {
        let graph = Graph {
            nodes: self.nodes,
            edges: Vec::from_slice(alloc, &self.edges)?,
        };
        Ok(Closure::of(alloc, graph)?)
    }

    /// Pairs of nodes along which the closure unites its rows, such that one pass makes each row whole. Nothing
    /// rests on that but its speed, so no clause says it. Fails only for want of memory.
    pub fn order(&self, alloc: Global) -> Result<Vec<(u32, u32)>, NoMemory>
        ensures { IfOk result (λ pairs. EndsBelow self.now.nodes pairs.items) }
    {
        Ok(order(alloc, self.nodes, &self.edges)?)
    }

    /// The edges, sorted by their first node.
    pub(crate) fn edges(&self) -> &[(u32, u32)]
        ensures edges { result.now ≡ self.now.edges }
        ensures sorted { IsNonDecreasingBy (λ e. e.0) result.now }
        ensures in_range { EndsBelow self.now.nodes result.now }
    {
        &self.edges
    }

    /// How many nodes there are: the nodes are the numbers below.
    pub fn nodes(&self) -> u32
        ensures count { result ≡ self.now.nodes }
        ensures few { result ≤ max_nodes }
    {
        self.nodes
    }
}
