// The test of what a hierarchy is built from.
ghost use Rattle.std.specs.Prelude.{◌↔◌, All, Contains, IfOk, IsTrue};
ghost use Rattle.dl_hier.specs.Predicates.{roles, basics};
ghost use Rattle.dl_hier.specs.Rows.{HasNames, AreFew};

use crate::auxiliaries::auxiliaries_of;
use crate::nodes::Nodes;
use dl_terms::{Basic, NoMemory, Normal, Role, Signature, set_of};
use std::alloc::Global;

/// The most classes, object properties and auxiliary roles together that a hierarchy may have.
pub const MAX_PREDICATES: usize = 4096;

/// Whether a hierarchy can be built from these: the signature has the names of the inclusions, and classes, object
/// properties and auxiliary roles together are at most `MAX_PREDICATES`. Fails only for want of memory.
pub fn fits(alloc: Global, normal: &Normal, signature: &Signature) -> Result<bool, NoMemory>
    ensures { IfOk result (λ fit. IsTrue fit ↔
        (HasNames signature.now normal.now × AreFew signature.now normal.now)) }
{
    if !are_few(alloc, normal, signature)? {
        return Ok(false);
    }
    let nodes = Nodes::of(alloc, normal, signature)?;
    if !knows_roles(&nodes, normal.roles.as_slice()) {
        return Ok(false);
    }
    Ok(knows_basics(&nodes, normal.concepts.as_slice()))
}

/// Whether classes, object properties and auxiliary roles together are at most `MAX_PREDICATES`.
fn are_few(alloc: Global, normal: &Normal, signature: &Signature) -> Result<bool, NoMemory>
    ensures { IfOk result (λ few. IsTrue few ↔ AreFew signature.now normal.now) }
{
    let auxiliaries = set_of(auxiliaries_of(alloc, normal)?);
    let names = signature
        .classes
        .len()
        .saturating_add(signature.roles.len());
    Ok(names.saturating_add(auxiliaries.len()) <= MAX_PREDICATES)
}

/// Whether both roles of each row are in the hierarchy.
fn knows_roles(nodes: &Nodes, rows: &[(Role, Role)]) -> bool
    ensures { IsTrue result ↔
        All (λ p. Contains (roles nodes.now) p.0 × Contains (roles nodes.now) p.1) rows.now }
{
    for row in rows {
        if !knows_both_roles(nodes, row.0, row.1) {
            return false;
        }
    }
    true
}

/// Whether both basic concepts of each row are in the hierarchy.
fn knows_basics(nodes: &Nodes, rows: &[(Basic, Basic)]) -> bool
    ensures { IsTrue result ↔
        All (λ p. Contains (basics nodes.now) p.0 × Contains (basics nodes.now) p.1) rows.now }
{
    for row in rows {
        if !knows_both_basics(nodes, row.0, row.1) {
            return false;
        }
    }
    true
}

fn knows_both_roles(nodes: &Nodes, one: Role, other: Role) -> bool
    ensures { IsTrue result ↔ (Contains (roles nodes.now) one × Contains (roles nodes.now) other) }
{
    match nodes.role(one) {
        Some(_) => nodes.role(other).is_some(),
        None => false,
    }
}

fn knows_both_basics(nodes: &Nodes, one: Basic, other: Basic) -> bool
    ensures { IsTrue result ↔
        (Contains (basics nodes.now) one × Contains (basics nodes.now) other) }
{
    match nodes.basic(one) {
        Some(_) => nodes.basic(other).is_some(),
        None => false,
    }
}
