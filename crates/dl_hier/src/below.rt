// Which predicates, and which roles, lead to given nodes.
ghost use Rattle.std.specs.Prelude.{◌≡◌, ◌+◌, ◌*◌, ◌<◌, ◌≤◌, ◌^◌, ◌↔◌, ℕ, length, All, Any, Contains, IfOk, IsTrue};
ghost use Rattle.std.specs.List.Sorted.{IsStrictlySortedBy};
ghost use Rattle.std.specs.Ordering.{nat_cmp};
ghost use Rattle.dl_terms.specs.Order.{role_cmp};
ghost use Rattle.dl_reach.specs.Chain.{Chain};
ghost use Rattle.dl_reach.specs.Digraph.{IsEdge, max_nodes};
ghost use Rattle.dl_hier.specs.Predicates.{max_predicates};
ghost use Rattle.dl_hier.specs.Picking.{ArePicked, LeadsToOneOf};

use crate::ways::Ways;
use dl_terms::{List, NoMemory, Role};
use std::alloc::Global;

/// The predicates below what was asked, each list ascending: classes, object properties as they stand, and object
/// properties whose inverse is meant.
#[derive(Drop)]
pub struct Below {
    pub classes: List<u32>,
    pub forward: List<u32>,
    pub backward: List<u32>,
}

/// The names of which a chain leads to one of the targets: the node of the first name is `first`, and that of each
/// later one is `every` nodes further.
pub(crate) fn names_leading(
    alloc: Global,
    ways: &Ways,
    names: &[u32],
    first: u32,
    every: u32,
    targets: &[u32],
) -> Result<List<u32>, NoMemory>
    requires few { ways.now.graph.nodes ≤ max_nodes }
    requires few_names { length names.now ≤ max_predicates }
    requires nodes { (k : ℕ) → k < length names.now → first + k * every < ways.now.graph.nodes }
    requires targets { All (λ t. t < ways.now.graph.nodes) targets.now }
    requires ascending { IsStrictlySortedBy nat_cmp names.now }
    ensures { IfOk result (ArePicked nat_cmp names.now
        (λ k. LeadsToOneOf ways.now.graph targets.now (first + k * every))) }
{
    let mut found = List::new(alloc);
    for (i, name) in names.iter().enumerate() {
        if leads_to_one_of(ways, first + i as u32 * every, targets) {
            found.push(*name)?;
        }
    }
    Ok(found)
}

/// The roles to which a chain leads from a node: the node of the first role is `first`, and those of the others follow.
pub(crate) fn roles_reached(
    alloc: Global,
    ways: &Ways,
    from: u32,
    roles: &[Role],
    first: u32,
) -> Result<List<Role>, NoMemory>
    requires few { ways.now.graph.nodes ≤ max_nodes }
    requires nodes { first + length roles.now ≤ ways.now.graph.nodes }
    requires from { from < ways.now.graph.nodes }
    requires ascending { IsStrictlySortedBy role_cmp roles.now }
    ensures { IfOk result (ArePicked role_cmp roles.now
        (λ k. Chain (IsEdge ways.now.graph) from (first + k))) }
{
    let mut found = List::new(alloc);
    for (i, role) in roles.iter().enumerate() {
        if ways.has(from, first + i as u32) {
            found.push(*role)?;
        }
    }
    Ok(found)
}

/// Whether a chain leads to one of the targets.
fn leads_to_one_of(ways: &Ways, node: u32, targets: &[u32]) -> bool
    requires node { node < ways.now.graph.nodes }
    requires targets { All (λ t. t < ways.now.graph.nodes) targets.now }
    ensures { IsTrue result ↔ LeadsToOneOf ways.now.graph targets.now node }
{
    for target in targets {
        if ways.has(node, *target) {
            return true;
        }
    }
    false
}
