ghost use Rattle.std.specs.Prelude.{◌≡◌, ◌≤◌, length, IfOk, IfSome};

use dl_intervals::ascends;
use dl_numbers::{Numbering, depth_first};
use dl_reach::{Closure, Graph, ends_below, fits};
use dl_terms::NoMemory;
use std::alloc::Global;

/// The closure of a graph, where it is one.
fn closure_of(alloc: Global, nodes: u32, edges: &[(u32, u32)]) -> Result<Option<Closure>, NoMemory>
    ensures { IfOk result (λ found. IfSome found (λ closure. closure.nodes ≡ nodes)) }
{
    if !fits(nodes) || !ends_below(nodes, edges) {
        return Ok(None);
    }
    let Ok(graph) = Graph::new(alloc, nodes, edges) else {
        return Err(NoMemory);
    };
    match graph.closure(alloc) {
        Ok(closure) => Ok(Some(closure)),
        Err(_) => Err(NoMemory),
    }
}

/// Names with numbers, and none where they don't ascend or are many, or where the edges between their places are none.
fn numbering_of(
    alloc: Global,
    names: &[u32],
    edges: &[(u32, u32)],
) -> Result<Option<Numbering>, NoMemory> {
    if !ascends(names) || names.len() > 100 {
        return Ok(None);
    }
    match closure_of(alloc, names.len() as u32, edges)? {
        Some(order) => Ok(Some(Numbering::build(alloc, names, &order)?)),
        None => Ok(None),
    }
}

/// Whether exactly these names have numbers, from 1 in this order.
fn are_numbered(numbering: &Numbering, names: &[u32]) -> bool {
    if numbering.len() as usize != names.len() {
        return false;
    }
    for (i, name) in names.iter().enumerate() {
        let number = i as u32 + 1;
        if numbering.number(*name) != Some(number) || numbering.name(number) != *name {
            return false;
        }
    }
    true
}

/// Whether none of these names has a number.
fn are_unknown(numbering: &Numbering, names: &[u32]) -> bool {
    for name in names {
        if numbering.number(*name).is_some() {
            return false;
        }
    }
    true
}

/// Whether the names have numbers in their order, and the others none.
fn has_numbers(alloc: Global, names: &[u32], others: &[u32]) -> bool {
    match numbering_of(alloc, names, &[]) {
        Ok(Some(numbering)) => are_numbered(&numbering, names) && are_unknown(&numbering, others),
        _ => false,
    }
}

#[test]
fn names_are_numbered_in_their_order(rt: HostRuntime) {
    assert!(rt; has_numbers(rt.alloc(), &[0, 3, 4, 9], &[1, 2, 5, 8, 10, u32::MAX]));
    assert!(rt; has_numbers(rt.alloc(), &[], &[0, 1]));
}

/// The places of a graph in depth-first order, where it is a graph.
fn order_of(alloc: Global, nodes: u32, edges: &[(u32, u32)]) -> Result<Option<Vec<u32>>, NoMemory> {
    match closure_of(alloc, nodes, edges)? {
        Some(order) => Ok(Some(depth_first(alloc, &order)?)),
        None => Ok(None),
    }
}

/// Whether a graph has this depth-first order.
fn has_order(alloc: Global, nodes: u32, edges: &[(u32, u32)], wanted: &[u32]) -> bool {
    match order_of(alloc, nodes, edges) {
        Ok(Some(places)) => places.as_slice() == wanted,
        _ => false,
    }
}

#[test]
fn places_stand_in_depth_first_order(rt: HostRuntime) {
    // 0 is below 1 and 2, and 3 below 1: the parent of 0 is the lesser of the two.
    assert!(rt; has_order(rt.alloc(), 4, &[(0, 1), (0, 2), (3, 1)], &[1, 0, 3, 2]));
    // 0 and 2 are one class, and 1 is below it.
    assert!(rt; has_order(rt.alloc(), 3, &[(0, 2), (2, 0), (1, 0)], &[0, 2, 1]));
    assert!(rt; has_order(rt.alloc(), 0, &[], &[]));
}

/// Whether the names get these numbers where there are these edges between their places: `wanted` has them in number
/// order.
fn has_numbers_by(alloc: Global, names: &[u32], edges: &[(u32, u32)], wanted: &[u32]) -> bool {
    match numbering_of(alloc, names, edges) {
        Ok(Some(numbering)) => are_numbered(&numbering, wanted),
        _ => false,
    }
}

/// The number of the name at one place, where that is below another.
fn number_below(
    numbering: &Numbering,
    order: &Closure,
    names: &[u32],
    one: u32,
    other: u32,
) -> Option<u32> {
    if one >= order.nodes() || other >= order.nodes() || !order.has(one, other) {
        return None;
    }
    numbering.number(*names.get(one as usize)?)
}

/// Whether the names below a place, in name order, have these numbers.
fn have_numbers_below(
    alloc: Global,
    names: &[u32],
    edges: &[(u32, u32)],
    place: u32,
    wanted: &[u32],
) -> Result<bool, NoMemory> {
    let Some(numbering) = numbering_of(alloc, names, edges)? else {
        return Ok(false);
    };
    let Some(order) = closure_of(alloc, numbering.len(), edges)? else {
        return Ok(false);
    };
    let mut found = Vec::new(alloc);
    for one in 0..order.nodes() {
        if let Some(number) = number_below(&numbering, &order, names, one, place) {
            found.push(number)?;
        }
    }
    Ok(found.as_slice() == wanted)
}

/// The classes A, B, C and D.
const NAMES: &[u32] = &[5, 6, 8, 9];

/// A is below B and C, and D below B.
const TWO_ABOVE: &[(u32, u32)] = &[(0, 1), (0, 2), (3, 1)];

/// A and C are one class, and B is below it.
const TOGETHER: &[(u32, u32)] = &[(0, 2), (2, 0), (1, 0)];

#[test]
fn names_are_numbered_in_depth_first_order(rt: HostRuntime) {
    // B 1, A 2, D 3 and C 4, and what is below C has two numbers that aren't one interval.
    assert!(rt; has_numbers_by(rt.alloc(), NAMES, TWO_ABOVE, &[6, 5, 9, 8]));
    assert!(rt;
        matches!(
            have_numbers_below(rt.alloc(), NAMES, TWO_ABOVE, 2, &[2, 4]),
            Ok(true)
        )
    );
    // A 1, C 2 and B 3.
    assert!(rt; has_numbers_by(rt.alloc(), &[5, 6, 8], TOGETHER, &[5, 8, 6]));
}

/// A graph of at most eight places, and below which each of them is.
#[derive(Clone, Copy)]
struct Small {
    places: usize,
    below: [[bool; 8]; 8],
}

impl Small {
    /// So many places, each below itself.
    fn new(places: usize) -> Small {
        let mut small = Small {
            places,
            below: [[false; 8]; 8],
        };
        for place in 0..8 {
            small.put(place, place);
        }
        small
    }

    /// Puts one place below another.
    fn put(&mut self, one: usize, other: usize) {
        if one < 8 && other < 8 {
            self.below[one][other] = true;
        }
    }

    /// Whether one place is below another.
    fn is_below(&self, one: usize, other: usize) -> bool {
        one < 8 && other < 8 && self.below[one][other]
    }

    /// Whether one place is below another, and not the other way round.
    fn is_strictly_below(&self, one: usize, other: usize) -> bool {
        self.is_below(one, other) && !self.is_below(other, one)
    }

    /// What is below a place is below what that one is below: each three places in turn, eight times.
    fn close(&mut self) {
        for i in 0..4096 {
            let (one, between, other) = (i / 64 % 8, i / 8 % 8, i % 8);
            if self.is_below(one, between) && self.is_below(between, other) {
                self.put(one, other);
            }
        }
    }

    /// The least place that is equivalent to one.
    fn class(&self, place: usize) -> usize {
        for other in 0..place {
            if self.is_below(place, other) && self.is_below(other, place) {
                return other;
            }
        }
        place
    }

    /// Whether a class is strictly above another, with none between them.
    fn is_least_above(&self, above: usize, class: usize) -> bool {
        for other in 0..self.places {
            if self.is_strictly_below(class, other) && self.is_strictly_below(other, above) {
                return false;
            }
        }
        self.is_strictly_below(class, above)
    }

    /// Of the least classes strictly above one, that whose least place is least.
    fn parent(&self, class: usize) -> Option<usize> {
        for above in 0..self.places {
            if self.is_least_above(above, class) {
                return Some(self.class(above));
            }
        }
        None
    }

    /// Puts the places of a class behind others.
    fn push_class(&self, class: usize, found: &mut Vec<u32>) -> Result<(), NoMemory> {
        for place in 0..self.places.min(8) {
            if self.class(place) == class {
                found.push(place as u32)?;
            }
        }
        Ok(())
    }

    /// Puts each class with this parent behind others, and all that is below it, so many levels deep.
    fn walk(
        &self,
        parent: Option<usize>,
        levels: u32,
        found: &mut Vec<u32>,
    ) -> Result<(), NoMemory> {
        if levels == 0 {
            return Ok(());
        }
        for place in 0..self.places {
            if self.class(place) == place && self.parent(place) == parent {
                self.push_class(place, found)?;
                self.walk(Some(place), levels - 1, found)?;
            }
        }
        Ok(())
    }
}

/// The next number that looks like drawn, below a bound (a linear congruential generator).
fn drawn(state: &mut u64, bound: u32) -> u32 {
    *state = state
        .wrapping_mul(6_364_136_223_846_793_005)
        .wrapping_add(1_442_695_040_888_963_407);
    ((*state >> 33) % u64::from(bound.max(1))) as u32
}

/// Edges between so many places, of which there are at most twelve.
fn drawn_edges(alloc: Global, state: &mut u64, places: u32) -> Result<Vec<(u32, u32)>, NoMemory> {
    let mut edges = Vec::new(alloc);
    for _ in 0..drawn(state, 13) {
        let from = drawn(state, places);
        edges.push((from, drawn(state, places)))?;
    }
    Ok(edges)
}

/// The places of a graph in depth-first order, by the words of the rule.
fn plain_order(alloc: Global, places: u32, edges: &[(u32, u32)]) -> Result<Vec<u32>, NoMemory> {
    let mut small = Small::new(places as usize);
    for edge in edges {
        small.put(edge.0 as usize, edge.1 as usize);
    }
    small.close();
    let mut found = Vec::new(alloc);
    small.walk(None, 8, &mut found)?;
    Ok(found)
}

/// Whether so many graphs that look like drawn have the order that the plain search gives.
fn are_in_plain_order(alloc: Global, graphs: u32) -> Result<bool, NoMemory> {
    let mut state = 1u64;
    for _ in 0..graphs {
        let places = drawn(&mut state, 8).saturating_add(1);
        let edges = drawn_edges(alloc, &mut state, places)?;
        let plain = plain_order(alloc, places, &edges)?;
        if plain.len() != places as usize || !has_order(alloc, places, &edges, &plain) {
            return Ok(false);
        }
    }
    Ok(true)
}

#[test]
fn drawn_graphs_have_the_order_of_a_plain_search(rt: HostRuntime) {
    assert!(rt; matches!(are_in_plain_order(rt.alloc(), 200), Ok(true)));
}
