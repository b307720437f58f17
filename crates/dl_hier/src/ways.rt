// Graphs kept as the closure of their edges turned round, so that one matrix answers what is below and above.
ghost use Rattle.std.specs.Prelude.{◌≡◌, ◌+◌, ◌*◌, ◌/◌, ◌%◌, ◌<◌, ◌≤◌, ◌↔◌, ℕ, true, length, map, get_or, Contains, IfOk, IsTrue};
ghost use Rattle.dl_reach.specs.Chain.{Chain};
ghost use Rattle.dl_reach.specs.Digraph.{IsEdge, EndsBelow, max_nodes};
ghost use Rattle.dl_reach.specs.Rows.{row_has};
ghost use Rattle.dl_hier.specs.Ways.{AreWaysOf, other, place, node_at, kept_edge};

use dl_reach::{Closure, Graph};
use dl_terms::NoMemory;
use std::alloc::{AllocError, Global};
use std::marker::Model;

/// A graph, as the closure of its edges turned round: with the last `rest` nodes before the `first` ones, each two of
/// them in each other's place. So the bits of a row begin with those of the last nodes.
#[derive(Drop)]
pub(crate) struct Ways {
    first: u32,
    rest: u32,
    closure: Closure,
}

impl Model for Ways {
    ghost use Rattle.std.specs.Prelude.{◌≡◌, ◌+◌, ◌%◌, ◌≤◌, map};
    ghost use Rattle.dl_reach.specs.Digraph.{EndsBelow, max_nodes};
    ghost use Rattle.dl_hier.specs.Ways.{Ways, edge_of};

    ghost Value = { Ways };

    ghost view = { λ w. record {
      first = w.first;
      rest = w.rest;
      graph = record { nodes = w.closure.nodes; edges = map (edge_of w.first w.rest) w.closure.edges };
    } };

    ghost invariant = { λ w. record {
      nodes : w.closure.nodes ≡ w.first + w.rest;
      few : w.closure.nodes ≤ max_nodes;
      even : w.rest % 2 ≡ 0;
      ends : EndsBelow (w.first + w.rest) w.closure.edges;
    } };
}

impl Ways {
    /// The ways of these edges. Fails only for want of memory.
    pub(crate) fn of(
        alloc: Global,
        first: u32,
        rest: u32,
        edges: &[(u32, u32)],
    ) -> Result<Ways, NoMemory>
        requires few { first + rest ≤ max_nodes }
        requires even { rest % 2 ≡ 0 }
        requires ends { EndsBelow (first + rest) edges.now }
        ensures { IfOk result (AreWaysOf first rest edges.now) }
    {
        let kept = kept_edges(alloc, first, rest, edges)?;
        let closure = closure_of(alloc, first + rest, &kept)?;
        Ok(Ways {
            first,
            rest,
            closure,
        })
    }

    /// Whether a chain of edges leads from the one node to the other. The empty chain counts.
    pub(crate) fn has(&self, from: u32, to: u32) -> bool
        requires from { from < self.now.graph.nodes }
        requires to { to < self.now.graph.nodes }
        ensures { IsTrue result ↔ Chain (IsEdge self.now.graph) from to }
    {
        let to = place(self.first, self.rest, to);
        let from = place(self.first, self.rest, from);
        self.closure.has(to, from)
    }

    /// The nodes from which chains lead to this one, as bits: that of the node that stands at place `i`.
    pub(crate) fn row(&self, to: u32) -> &[u64]
        requires { to < self.now.graph.nodes }
        ensures { (i : ℕ) → i < self.now.graph.nodes → (row_has result.now i ≡ true)
            ↔ Chain (IsEdge self.now.graph) (node_at self.now.first self.now.rest i) to }
    {
        self.closure.row(place(self.first, self.rest, to))
    }
}

impl Ways {
    /// The closure between some of the nodes alone: the first node is `first`, and each later one is `every` nodes
    /// further. Fails only for want of memory.
    pub(crate) fn among(
        &self,
        alloc: Global,
        first: u32,
        every: u32,
        count: u32,
    ) -> Result<Closure, NoMemory>
        requires nodes { (k : ℕ) → k < count → first + k * every < self.now.graph.nodes }
        requires few { count ≤ max_nodes }
        ensures count { IfOk result (λ order. order.nodes ≡ count) }
        ensures chains { IfOk result (λ order. (i j : ℕ) → i < count → j < count → Chain (IsEdge order) i j
            ↔ Chain (IsEdge self.now.graph) (first + i * every) (first + j * every)) }
    {
        let places = self.places(alloc, first, every, count)?;
        match self.closure.turned(alloc, &places) {
            Ok(order) => Ok(order),
            Err(_) => Err(NoMemory),
        }
    }

    /// Where these nodes stand in the kept order.
    fn places(
        &self,
        alloc: Global,
        first: u32,
        every: u32,
        count: u32,
    ) -> Result<Vec<u32>, AllocError>
        requires nodes { (k : ℕ) → k < count → first + k * every < self.now.graph.nodes }
        ensures count { IfOk result (λ places. length places.items ≡ count) }
        ensures each { IfOk result (λ places. (k : ℕ) → k < count → get_or places.items k 0
            ≡ place self.now.first self.now.rest (first + k * every)) }
    {
        let mut places = Vec::with_capacity(alloc, count as usize)?;
        for k in 0..count {
            places.push(place(self.first, self.rest, first + k * every))?;
        }
        Ok(places)
    }
}

/// Where a node stands in the kept order.
fn place(first: u32, rest: u32, node: u32) -> u32
    requires few { first + rest ≤ max_nodes }
    requires node { node < first + rest }
    ensures { result ≡ place first rest node }
{
    if node < first {
        rest + node
    } else {
        other(node - first)
    }
}

/// The other of a pair.
fn other(node: u32) -> u32
    ensures { result ≡ other node }
{
    if node % 2 == 0 { node + 1 } else { node - 1 }
}

/// The edges turned round, between the places of their ends.
fn kept_edges(
    alloc: Global,
    first: u32,
    rest: u32,
    edges: &[(u32, u32)],
) -> Result<Vec<(u32, u32)>, AllocError>
    requires few { first + rest ≤ max_nodes }
    requires ends { EndsBelow (first + rest) edges.now }
    ensures { IfOk result (λ kept. kept.items ≡ map (kept_edge first rest) edges.now) }
{
    let mut kept = Vec::new(alloc);
    for (from, to) in edges {
        kept.push((place(first, rest, *to), place(first, rest, *from)))?;
    }
    Ok(kept)
}

/// The closure of a graph.
fn closure_of(alloc: Global, nodes: u32, edges: &[(u32, u32)]) -> Result<Closure, NoMemory>
    requires few { nodes ≤ max_nodes }
    requires ends { EndsBelow nodes edges.now }
    ensures nodes { IfOk result (λ closure. closure.nodes ≡ nodes) }
    ensures edges { IfOk result (λ closure.
        (a b : ℕ) → Contains closure.edges (a, b) ↔ Contains edges.now (a, b)) }
{
    match Graph::new(alloc, nodes, edges) {
        Ok(graph) => match graph.closure(alloc) {
            Ok(closure) => Ok(closure),
            Err(_) => Err(NoMemory),
        },
        Err(_) => Err(NoMemory),
    }
}
