// Graphs, searched and closed.
ghost use Rattle.std.specs.Prelude.{◌≡◌, ◌<◌, ◌≤◌, IfOk, IfSome, OnOk};
ghost use Rattle.dl_reach.specs.Digraph.{EndsBelow};

use dl_reach::{Graph, fits};
use std::alloc::{AllocError, Global};
use std::io;

/// What `run` takes. `NODES` is from 1 to `MAX_NODES`.
pub const WORDS: &str = "reach graph|search|closure|classes tree|tangle|both NODES EXTRA";

/// Runs what the words say, and prints counts. False where the words say nothing, or a number is out of range.
pub fn run<R: AllocGlobal + Print>(rt: &R, words: &[String]) -> io::Result<bool> {
    let (Some(what), Some(shape), Some(nodes), Some(extra)) = (
        words.get(1),
        words.get(2),
        words.get(3),
        words.get(4),
    ) else {
        return Ok(false);
    };
    let (Ok(nodes), Ok(extra)) = (nodes.as_str().parse::<u32>(), extra.as_str().parse::<u32>())
    else {
        return Ok(false);
    };
    if nodes == 0 || !fits(nodes) {
        return Ok(false);
    }
    let Some(edges) = edges_of(rt.alloc(), shape.as_str(), nodes, extra)? else {
        return Ok(false);
    };
    let graph = Graph::new(rt.alloc(), nodes, &edges).map_err(|_refused| AllocError)?;
    match what.as_str() {
        "graph" => println!(rt; "edges {}", edges.len())?,
        "search" => println!(rt; "reached {}", search(rt.alloc(), &graph)?)?,
        "closure" => println!(rt; "reached {}", close(rt.alloc(), &graph)?)?,
        "classes" => println!(rt; "classes {}", classes(rt.alloc(), &graph)?)?,
        _ => return Ok(false),
    }
    Ok(true)
}

/// How many nodes a search from the last node reaches.
fn search(alloc: Global, graph: &Graph) -> Result<usize, AllocError>
    requires { 0 < graph.now.nodes }
{
    let last = graph.nodes() - 1;
    let found = graph.reach(alloc, last).map_err(|_refused| AllocError)?;
    Ok(found.len())
}

/// How many nodes are reached from the last node, by the closure.
fn close(alloc: Global, graph: &Graph) -> Result<usize, AllocError>
    requires { 0 < graph.now.nodes }
{
    let nodes = graph.nodes();
    let closure = graph.closure(alloc).map_err(|_refused| AllocError)?;
    let mut reached: usize = 0;
    for node in 0..nodes {
        if closure.has(nodes - 1, node) {
            reached = reached.saturating_add(1);
        }
    }
    Ok(reached)
}

/// How many classes of nodes that reach each other there are.
fn classes(alloc: Global, graph: &Graph) -> Result<usize, AllocError> {
    let closure = graph.closure(alloc).map_err(|_refused| AllocError)?;
    let mut count: usize = 0;
    for node in 0..graph.nodes() {
        if closure.class_of(node) == node {
            count = count.saturating_add(1);
        }
    }
    Ok(count)
}

/// A binary tree with edges to the parents and more edges: of a tree to smaller nodes, of a tangle any way, or
/// else back to the children.
fn edges_of(
    alloc: Global,
    shape: &str,
    nodes: u32,
    extra: u32,
) -> Result<Option<Vec<(u32, u32)>>, AllocError>
    requires { 0 < nodes }
    ensures { IfOk result (λ made. IfSome made (λ edges. EndsBelow nodes edges.items)) }
{
    let mut edges = Vec::new(alloc);
    push_parents(&mut edges, nodes, shape == "both")?;
    match shape {
        "tree" => push_more(&mut edges, nodes, extra, true)?,
        "tangle" => push_more(&mut edges, nodes, extra, false)?,
        "both" => (),
        _ => return Ok(None),
    }
    Ok(Some(edges))
}

/// The edges of a binary tree to the parents, or both ways.
fn push_parents(edges: &mut Vec<(u32, u32)>, nodes: u32, both: bool) -> Result<(), AllocError>
    requires { EndsBelow nodes edges.old.items }
    ensures { OnOk result (EndsBelow nodes edges.new.items) }
{
    for node in 1..nodes {
        let parent = (node - 1) / 2;
        edges.push((node, parent))?;
        if both {
            edges.push((parent, node))?;
        }
    }
    Ok(())
}

/// Edges between nodes far apart, all to smaller nodes or any way.
fn push_more(
    edges: &mut Vec<(u32, u32)>,
    nodes: u32,
    extra: u32,
    to_smaller: bool,
) -> Result<(), AllocError>
    requires nodes { 0 < nodes }
    requires ends { EndsBelow nodes edges.old.items }
    ensures { OnOk result (EndsBelow nodes edges.new.items) }
{
    for i in 0..u64::from(extra) {
        let one = (i * 7919 % u64::from(nodes)) as u32;
        let other = (i * 104_729 % u64::from(nodes)) as u32;
        if to_smaller {
            edges.push((one.max(other), one.min(other)))?;
        } else {
            edges.push((one, other))?;
        }
    }
    Ok(())
}
