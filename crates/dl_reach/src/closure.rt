ghost use Rattle.std.specs.Prelude.{◌≡◌, ℕ, ◌+◌, ◌*◌, ◌<◌, ◌≤◌, ◌↔◌, ◌⊎◌, List, All, true, length, get_or, IfOk, IsTrue, Contains};
ghost use Rattle.std.specs.List.Sorted.{IsNonDecreasingBy};
ghost use Rattle.dl_reach.specs.Chain.{Chain};
ghost use Rattle.dl_reach.specs.Digraph.{Digraph, max_nodes, IsEdge, Leads, EndsBelow, AreConnected};
ghost use Rattle.dl_reach.specs.Matrix.{HasBit, HasRow, HasChains};
ghost use Rattle.dl_reach.specs.Rows.{row_has};

use crate::graph::Graph;
use crate::matrix::{close, follow_all, has_bit, set_bit, set_bits, set_diagonal};
use crate::memory::NoMemory;
use crate::order::order;
use std::alloc::{AllocError, Global};
use std::marker::Model;

/// Where the edges stand whose chains a closure tells.
#[derive(Drop)]
enum Edges {
    /// In the graph that was closed.
    Listed(Graph),

    /// Nowhere else: between so many nodes there is an edge for each bit that is set.
    Bits(u32),
}

/// Which nodes of a graph chains of edges lead to, from each node: a bit for each two nodes, beside the graph
/// that it stands for.
#[derive(Drop)]
pub struct Closure {
    edges: Edges,
    width: usize,
    words: Vec<u64>,
}

impl Model for Closure {
    ghost use Rattle.std.specs.Prelude.{◌≡◌, ◌*◌, ◌≤◌, length};
    ghost use Rattle.dl_reach.specs.Digraph.{Digraph, max_nodes};
    ghost use Rattle.dl_reach.specs.Matrix.{HasChains};
    ghost use Rattle.dl_reach.specs.Closures.{graph_of};

    ghost Value = { Digraph };

    ghost view = { λ c. graph_of c.edges c.width c.words.items };

    ghost invariant = { λ c. record {
      few : (graph_of c.edges c.width c.words.items).nodes ≤ max_nodes;
      wide : (graph_of c.edges c.width c.words.items).nodes ≤ 64 * c.width;
      len : length c.words.items ≡ (graph_of c.edges c.width c.words.items).nodes * c.width;
      chains : HasChains c.words.items c.width (graph_of c.edges c.width c.words.items).nodes
          (graph_of c.edges c.width c.words.items).edges;
    } };
}

impl Closure {
    /// The closure of the graph. Fails only for want of memory.
    pub(crate) fn of(alloc: Global, graph: Graph) -> Result<Closure, AllocError>
        ensures { IfOk result (λ c. c ≡ graph) }
    {
        let width = (graph.nodes() as usize).div_ceil(64);
        let words = chain_bits(alloc, graph.nodes(), width, graph.edges())?;
        Ok(Closure {
            edges: Edges::Listed(graph),
            width,
            words,
        })
    }

    /// The closure between some of the nodes alone, turned round: a chain leads from the first to the second of two
    /// places among them where one leads, here, from the node at the second place to that at the first. Fails only for
    /// want of memory.
    pub fn turned(&self, alloc: Global, nodes: &[u32]) -> Result<Closure, NoMemory>
        requires few { length nodes.now ≤ max_nodes }
        requires within { All (λ node. node < self.now.nodes) nodes.now }
        ensures count { IfOk result (λ turned. turned.nodes ≡ length nodes.now) }
        ensures chains { IfOk result (λ turned. (i j : ℕ) → i < length nodes.now → j < length nodes.now
            → Chain (IsEdge turned) i j
            ↔ Chain (IsEdge self.now) (get_or nodes.now j 0) (get_or nodes.now i 0)) }
    {
        let width = nodes.len().div_ceil(64);
        let mut words = vec![in alloc; 0u64; nodes.len() * width]?;
        turn_rows(&mut words, width, self, nodes);
        Ok(Closure {
            edges: Edges::Bits(nodes.len() as u32),
            width,
            words,
        })
    }

    /// Whether a chain of edges leads from the one node to the other. The empty chain counts.
    pub fn has(&self, from: u32, to: u32) -> bool
        requires from { from < self.now.nodes }
        requires to { to < self.now.nodes }
        ensures { IsTrue result ↔ Chain (IsEdge self.now) from to }
    {
        has_bit(&self.words, self.width, from as usize, to as usize)
    }

    /// The nodes that chains lead to from this one, as bits: that of node `i` is bit `i % 64`, from the lowest, of the
    /// word `i / 64`. It takes no memory.
    pub fn row(&self, from: u32) -> &[u64]
        requires { from < self.now.nodes }
        ensures { (to : ℕ) → to < self.now.nodes
            → (row_has result.now to ≡ true) ↔ Chain (IsEdge self.now) from to }
    {
        row_of(&self.words, self.width, from as usize)
    }

    /// The least node that chains lead to from this one and back.
    pub fn class_of(&self, node: u32) -> u32
        requires { node < self.now.nodes }
        ensures mutual { AreConnected self.now node result }
        ensures least { (other : ℕ) → AreConnected self.now node other → result ≤ other }
    {
        least_connected(&self.words, self.width, node)
    }

    /// How many nodes there are: the nodes are the numbers below.
    pub fn nodes(&self) -> u32
        ensures count { result ≡ self.now.nodes }
        ensures few { result ≤ max_nodes }
    {
        match &self.edges {
            Edges::Listed(graph) => graph.nodes(),
            Edges::Bits(nodes) => *nodes,
        }
    }
}

/// Sets the bits of the closure that is turned round: its columns are the rows of the nodes.
fn turn_rows(words: &mut [u64], width: usize, closure: &Closure, nodes: &[u32])
    requires empty { (a b : ℕ) → HasBit words.old width a b → ⊥ }
    requires rows { length words.old ≡ length nodes.now * width }
    requires columns { length nodes.now ≤ 64 * width }
    requires within { All (λ node. node < closure.now.nodes) nodes.now }
    ensures { (a b : ℕ) → HasBit words.new width a b ↔ ((b < length nodes.now) × (a < length nodes.now)
        × Chain (IsEdge closure.now) (get_or nodes.now b 0) (get_or nodes.now a 0)) }
{
    for column in 0..nodes.len() {
        turn_row(words, width, closure, nodes, column);
    }
}

/// Sets the bits of one column of it, from the row of the node at that place.
fn turn_row(words: &mut [u64], width: usize, closure: &Closure, nodes: &[u32], column: usize)
    requires rows { length nodes.now * width ≤ length words.old }
    requires columns { length nodes.now ≤ 64 * width }
    requires column { column < length nodes.now }
    requires within { All (λ node. node < closure.now.nodes) nodes.now }
    ensures { (a b : ℕ) → HasBit words.new width a b ↔ (HasBit words.old width a b ⊎ ((b ≡ column)
        × (a < length nodes.now)
        × Chain (IsEdge closure.now) (get_or nodes.now column 0) (get_or nodes.now a 0))) }
{
    for row in 0..nodes.len() {
        if closure.has(nodes[column], nodes[row]) {
            set_bit(words, width, row, column);
        }
    }
}

/// The words of a row.
fn row_of(words: &[u64], width: usize, row: usize) -> &[u64]
    requires { HasRow words.now width row }
    ensures { (column : ℕ) → column < 64 * width
        → (row_has result.now column ≡ true) ↔ HasBit words.now width row column }
{
    &words[row * width..row * width + width]
}

/// The bits of all chains of the edges.
fn chain_bits(
    alloc: Global,
    nodes: u32,
    width: usize,
    edges: &[(u32, u32)],
) -> Result<Vec<u64>, AllocError>
    requires few { nodes ≤ max_nodes }
    requires wide { nodes ≤ 64 * width }
    requires narrow { width ≤ 256 }
    requires ends { EndsBelow nodes edges.now }
    requires sorted { IsNonDecreasingBy (λ e. e.0) edges.now }
    ensures len { IfOk result (λ words. length words.items ≡ nodes * width) }
    ensures chains { IfOk result (λ words. HasChains words.items width nodes edges.now) }
{
    let order = order(alloc, nodes, edges)?;
    let mut words = vec![in alloc; 0u64; nodes as usize * width]?;
    fill(&mut words, width, nodes, edges, &order);
    Ok(words)
}

/// Sets the bits of all chains. The order only makes the last loop short: it may be any pairs of nodes.
fn fill(words: &mut [u64], width: usize, nodes: u32, edges: &[(u32, u32)], order: &[(u32, u32)])
    requires empty { (a b : ℕ) → HasBit words.old width a b → ⊥ }
    requires len { length words.old ≡ nodes * width }
    requires wide { nodes ≤ 64 * width }
    requires ends { EndsBelow nodes edges.now }
    requires order { EndsBelow nodes order.now }
    ensures { HasChains words.new width nodes edges.now }
{
    set_diagonal(words, width, nodes as usize);
    set_bits(words, width, edges);
    let _ = follow_all(words, width, order);
    close(words, width, edges);
}

/// The least node with bits both ways. Words of the node's row with no bit are passed over at once.
fn least_connected(words: &[u64], width: usize, node: u32) -> u32
    requires rows { (node + 1) * width ≤ length words.now }
    requires columns { node < 64 * width }
    requires own { HasBit words.now width node node }
    ensures mutual { HasBit words.now width node result × HasBit words.now width result node }
    ensures within { result ≤ node }
    ensures least { (other : ℕ) → other < result
        → HasBit words.now width node other → HasBit words.now width other node → ⊥ }
{
    let row = node as usize;
    let mut other = 0;
    while other < row {
        if words[row * width + other / 64] == 0 {
            other = (other / 64 + 1) * 64;
        } else if has_bit(words, width, row, other) && has_bit(words, width, other, row) {
            return other as u32;
        } else {
            other += 1;
        }
    }
    node
}
