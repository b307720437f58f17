// Classes of places that chains connect, and the parent of each.
ghost use Rattle.std.specs.Prelude.{◌≡◌, ◌<◌, ◌↔◌, ℕ, length, get_or, All, Contains, IfOk, IsTrue, MatchOption};
ghost use Rattle.std.specs.List.Sorted.{IsStrictlyIncreasing};
ghost use Rattle.dl_numbers.specs.DepthFirst.{AreExactly, IsLeast, IsParent};
ghost use Rattle.dl_numbers.specs.Places.{places, Reaches, IsAbove, IsLeaderAbove, IsBeside, IsLowest, IsFirstLowest, AreLeaders, AreParents};

use dl_reach::Closure;
use dl_terms::NoMemory;
use std::alloc::Global;

/// The least place of the class of each place. It fails only for want of memory.
pub(crate) fn leaders(alloc: Global, order: &Closure) -> Result<Vec<u32>, NoMemory>
    ensures { IfOk result (λ found. AreLeaders order.now found.items) }
{
    let mut found = Vec::with_capacity(alloc, order.nodes() as usize)?;
    for place in 0..order.nodes() {
        found.push(order.class_of(place))?;
    }
    Ok(found)
}

/// The parent of each place that is the least of its class. It fails only for want of memory.
pub(crate) fn parents(
    alloc: Global,
    order: &Closure,
    leaders: &[u32],
) -> Result<Vec<Option<u32>>, NoMemory>
    requires { AreLeaders order.now leaders.now }
    ensures { IfOk result (λ found. AreParents order.now found.items) }
{
    let mut found = Vec::with_capacity(alloc, order.nodes() as usize)?;
    for place in 0..order.nodes() {
        found.push(parent_if_least(alloc, order, leaders, place)?)?;
    }
    Ok(found)
}

/// The parent of a place that is the least of its class, and none of any other.
fn parent_if_least(
    alloc: Global,
    order: &Closure,
    leaders: &[u32],
    place: u32,
) -> Result<Option<u32>, NoMemory>
    requires leaders { AreLeaders order.now leaders.now }
    requires within { place < order.now.nodes }
    ensures { IfOk result (λ parent. IsLeast (places order.now.nodes) (Reaches order.now) place
        → MatchOption parent ((p : ℕ) → IsParent (places order.now.nodes) (Reaches order.now) p place → ⊥)
        (λ p. IsParent (places order.now.nodes) (Reaches order.now) p place)) }
{
    if leaders[place as usize] != place {
        return Ok(None);
    }
    let above = above(alloc, order, leaders, place)?;
    first_lowest(alloc, order, leaders, &above)
}

/// The places strictly above one that are the least of their classes, ascending.
fn above(alloc: Global, order: &Closure, leaders: &[u32], place: u32) -> Result<Vec<u32>, NoMemory>
    requires leaders { AreLeaders order.now leaders.now }
    requires within { place < order.now.nodes }
    ensures { IfOk result (λ found. AreExactly (places order.now.nodes)
        (λ other. IsLeaderAbove order.now leaders.now other place) found.items) }
{
    let mut found = Vec::new(alloc);
    for other in 0..order.nodes() {
        if is_leader_above(order, leaders, other, place) {
            found.push(other)?;
        }
    }
    Ok(found)
}

/// The first of some places that is strictly above none of them. Each round finds one that is so and leaves out what is
/// above it, until nothing that is left comes before what was found. So a chain takes one round, in whatever order its
/// places are. It fails only for want of memory.
fn first_lowest(
    alloc: Global,
    order: &Closure,
    leaders: &[u32],
    above: &[u32],
) -> Result<Option<u32>, NoMemory>
    requires leaders { AreLeaders order.now leaders.now }
    requires within { All (λ other. other < order.now.nodes) above.now }
    requires ascending { IsStrictlyIncreasing above.now }
    ensures { IfOk result (λ first. MatchOption first
        ((b : ℕ) → Contains above.now b → IsLowest order.now above.now b → ⊥)
        (λ b. IsFirstLowest order.now above.now b)) }
{
    if above.is_empty() {
        return Ok(None);
    }
    let mut first = one_lowest(order, leaders, above);
    let mut left = without(alloc, order, leaders, above, first)?;
    while begins_before(&left, first) {
        let lowest = one_lowest(order, leaders, &left);
        first = first.min(lowest);
        left = without(alloc, order, leaders, &left, lowest)?;
    }
    Ok(Some(first))
}

/// Whether there are places, and the first of them comes before another place.
fn begins_before(places: &[u32], place: u32) -> bool
    ensures { IsTrue result ↔ ((0 < length places.now) × (get_or places.now 0 0 < place)) }
{
    !places.is_empty() && places[0] < place
}

/// Of some places one that is strictly above none of them.
fn one_lowest(order: &Closure, leaders: &[u32], left: &[u32]) -> u32
    requires leaders { AreLeaders order.now leaders.now }
    requires within { All (λ other. other < order.now.nodes) left.now }
    requires some { 0 < length left.now }
    ensures { Contains left.now result × IsLowest order.now left.now result }
{
    let mut lowest = left[0];
    for place in left {
        if is_above(order, leaders, lowest, *place) {
            lowest = *place;
        }
    }
    lowest
}

/// Those of some places, ascending, that are neither the one nor strictly above it.
fn without(
    alloc: Global,
    order: &Closure,
    leaders: &[u32],
    left: &[u32],
    lowest: u32,
) -> Result<Vec<u32>, NoMemory>
    requires leaders { AreLeaders order.now leaders.now }
    requires within { All (λ other. other < order.now.nodes) left.now }
    requires ascending { IsStrictlyIncreasing left.now }
    requires lowest { lowest < order.now.nodes }
    ensures { IfOk result (λ kept. AreExactly left.now (λ other. IsBeside order.now other lowest) kept.items) }
{
    let mut kept = Vec::new(alloc);
    for other in left {
        if is_beside(order, leaders, *other, lowest) {
            kept.push(*other)?;
        }
    }
    Ok(kept)
}

/// Whether a place is neither another nor strictly above it.
fn is_beside(order: &Closure, leaders: &[u32], place: u32, lowest: u32) -> bool
    requires leaders { AreLeaders order.now leaders.now }
    requires place { place < order.now.nodes }
    requires lowest { lowest < order.now.nodes }
    ensures { IsTrue result ↔ IsBeside order.now place lowest }
{
    place != lowest && !is_above(order, leaders, place, lowest)
}

/// Whether the one place is strictly above the other, and the least of its class.
fn is_leader_above(order: &Closure, leaders: &[u32], above: u32, place: u32) -> bool
    requires leaders { AreLeaders order.now leaders.now }
    requires above { above < order.now.nodes }
    requires place { place < order.now.nodes }
    ensures { IsTrue result ↔ IsLeaderAbove order.now leaders.now above place }
{
    leaders[above as usize] == above && is_above(order, leaders, above, place)
}

/// Whether the one place is strictly above the other.
fn is_above(order: &Closure, leaders: &[u32], above: u32, place: u32) -> bool
    requires leaders { AreLeaders order.now leaders.now }
    requires above { above < order.now.nodes }
    requires place { place < order.now.nodes }
    ensures { IsTrue result ↔ IsAbove order.now above place }
{
    order.has(place, above) && leaders[above as usize] != leaders[place as usize]
}
