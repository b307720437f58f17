ghost use Rattle.std.specs.Prelude.{◌≡◌, ◌<◌, ◌≤◌, length, IfOk};
ghost use Rattle.dl_reach.specs.Digraph.{EndsBelow};

use dl_reach::{Closure, Graph, MAX_NODES, NoMemory, ends_below, fits};
use std::alloc::Global;

const LINE: [(u32, u32); 2] = [(0, 1), (1, 2)];

const NONE: [(u32, u32); 0] = [];

const SELF_LOOPS: [(u32, u32); 3] = [(1, 1), (0, 0), (0, 1)];

const RING: [(u32, u32); 5] = [(0, 1), (1, 2), (2, 3), (3, 4), (4, 0)];

const TWO_COMPONENTS: [(u32, u32); 6] = [(0, 2), (2, 4), (4, 0), (1, 3), (3, 5), (5, 3)];

const RINGS_IN_A_ROW: [(u32, u32); 9] = [
    (5, 2),
    (2, 5),
    (2, 7),
    (7, 1),
    (1, 7),
    (7, 6),
    (6, 4),
    (4, 6),
    (0, 5),
];

const BOTH_WAYS: [(u32, u32); 8] = [
    (3, 0),
    (0, 3),
    (3, 4),
    (4, 3),
    (4, 1),
    (1, 4),
    (1, 2),
    (2, 1),
];

const TWICE: [(u32, u32); 4] = [(2, 0), (0, 1), (2, 0), (0, 1)];

/// Graphs, each as the number of its nodes and its edges.
const GRAPHS: &[(u32, &[(u32, u32)])] = &[
    (1, &NONE),
    (4, &NONE),
    (3, &LINE),
    (2, &SELF_LOOPS),
    (5, &RING),
    (6, &TWO_COMPONENTS),
    (8, &RINGS_IN_A_ROW),
    (5, &BOTH_WAYS),
    (3, &TWICE),
];

/// Those with rings.
const RINGS: &[(u32, &[(u32, u32)])] = &[
    (5, &RING),
    (6, &TWO_COMPONENTS),
    (8, &RINGS_IN_A_ROW),
    (5, &BOTH_WAYS),
];

/// Whether the closure is that of the line.
fn is_of_the_line(closure: &Closure) -> bool {
    closure.nodes() == 3 && closure.has(0, 2) && !closure.has(2, 0) && closure.class_of(2) == 2
}

/// Whether the line is reached from its first node.
fn reaches_along_the_line(alloc: Global) -> Result<bool, NoMemory> {
    let graph = Graph::new(alloc, 3, &LINE)?;
    let found = graph.reach(alloc, 0)?;
    let closure = graph.closure(alloc)?;
    Ok(graph.nodes() == 3 && found.as_slice() == [0, 1, 2].as_slice() && is_of_the_line(&closure))
}

/// Whether the last of as many nodes as may be reaches the first.
fn reaches_from_the_last(alloc: Global) -> Result<bool, NoMemory> {
    let graph = Graph::new(alloc, MAX_NODES, &[(MAX_NODES - 1, 0)])?;
    let found = graph.reach(alloc, MAX_NODES - 1)?;
    Ok(found.as_slice() == [0, MAX_NODES - 1].as_slice())
}

#[test]
fn reaches_along_edges(rt: HostRuntime) {
    assert!(rt; matches!(reaches_along_the_line(rt.alloc()), Ok(true)));
    assert!(rt; matches!(reaches_from_the_last(rt.alloc()), Ok(true)));
    assert!(rt; fits(16_384) && !fits(16_385));
}

/// Whether the closure has from a node exactly the found ones.
fn has_found(closure: &Closure, from: u32, found: &[u32]) -> bool
    requires { from < closure.now.nodes }
{
    for to in 0..closure.nodes() {
        if closure.has(from, to) != found.contains(&to) {
            return false;
        }
    }
    true
}

/// The least of the found nodes from which a search finds this one.
fn least_mutual(alloc: Global, graph: &Graph, from: u32, found: &[u32]) -> Result<u32, NoMemory> {
    for to in 0..graph.nodes() {
        if found.contains(&to) && graph.reach(alloc, to)?.contains(&from) {
            return Ok(to);
        }
    }
    Ok(from)
}

/// Whether the closure says what a search from each node finds.
fn agrees(alloc: Global, graph: &Graph) -> Result<bool, NoMemory> {
    let closure = graph.closure(alloc)?;
    for from in 0..graph.nodes() {
        let found = graph.reach(alloc, from)?;
        if !has_found(&closure, from, &found)
            || closure.class_of(from) != least_mutual(alloc, graph, from, &found)?
        {
            return Ok(false);
        }
    }
    Ok(true)
}

/// The graph of a row, if it is one.
fn graph_of(alloc: Global, nodes: u32, edges: &[(u32, u32)]) -> Result<Option<Graph>, NoMemory> {
    if !fits(nodes) || !ends_below(nodes, edges) {
        return Ok(None);
    }
    Ok(Some(Graph::new(alloc, nodes, edges)?))
}

/// Whether closures and searches agree in each row.
fn agree(alloc: Global, rows: &[(u32, &[(u32, u32)])]) -> Result<bool, NoMemory> {
    for row in rows {
        let Some(graph) = graph_of(alloc, row.0, row.1)? else {
            return Ok(false);
        };
        if !agrees(alloc, &graph)? {
            return Ok(false);
        }
    }
    Ok(true)
}

#[test]
fn closures_agree_with_searches(rt: HostRuntime) {
    assert!(rt; matches!(agree(rt.alloc(), GRAPHS), Ok(true)));
}

/// Sets in the row of each edge's first node the bit of its second.
fn set_bits(rows: &mut [u64], edges: &[(u32, u32)])
    requires ends { EndsBelow (length rows.old) edges.now }
    requires few { length rows.old ≤ 64 }
{
    for edge in edges {
        rows[edge.0 as usize] |= 1 << edge.1;
    }
}

/// Unites along each pair the row of the second node into that of the first, if that has its bit.
fn unite(rows: &mut [u64], pairs: &[(u32, u32)])
    requires ends { EndsBelow (length rows.old) pairs.now }
    requires few { length rows.old ≤ 64 }
{
    for pair in pairs {
        let row = rows[pair.0 as usize];
        if (row >> pair.1) & 1 == 1 {
            rows[pair.0 as usize] = row | rows[pair.1 as usize];
        }
    }
}

/// Whether the row of each edge's first node has all bits of its second.
fn are_whole(rows: &[u64], edges: &[(u32, u32)]) -> bool
    requires { EndsBelow (length rows.now) edges.now }
{
    for edge in edges {
        let row = rows[edge.0 as usize];
        if row | rows[edge.1 as usize] != row {
            return false;
        }
    }
    true
}

/// For each node a row with its own bit.
fn own_rows(alloc: Global, nodes: u32) -> Result<Vec<u64>, NoMemory>
    requires { nodes ≤ 64 }
    ensures { IfOk result (λ rows. length rows.items ≡ nodes) }
{
    let mut rows = Vec::new(alloc);
    for node in 0..nodes {
        rows.push(1u64 << node)?;
    }
    Ok(rows)
}

/// Whether one pass along the order makes each row whole, in a graph of at most 64 nodes.
fn one_pass_is_enough_in(
    alloc: Global,
    nodes: u32,
    edges: &[(u32, u32)],
) -> Result<bool, NoMemory> {
    if nodes > 64 || !ends_below(nodes, edges) {
        return Ok(false);
    }
    let order = Graph::new(alloc, nodes, edges)?.order(alloc)?;
    let mut rows = own_rows(alloc, nodes)?;
    set_bits(&mut rows, edges);
    unite(&mut rows, &order);
    Ok(are_whole(&rows, edges))
}

/// Whether that is so in each row.
fn one_pass_is_enough_in_all(
    alloc: Global,
    rows: &[(u32, &[(u32, u32)])],
) -> Result<bool, NoMemory> {
    for row in rows {
        if !one_pass_is_enough_in(alloc, row.0, row.1)? {
            return Ok(false);
        }
    }
    Ok(true)
}

/// What no clause says of the order: one pass along it makes each row whole.
#[test]
fn one_pass_is_enough(rt: HostRuntime) {
    assert!(rt; matches!(one_pass_is_enough_in_all(rt.alloc(), RINGS), Ok(true)));
}
