// The edges of the graphs of a hierarchy: a step of inclusion each.
ghost use Rattle.std.specs.Prelude.{◌≡◌, ◌+◌, ◌*◌, ◌/◌, ◌++◌, ◌<◌, ◌≤◌, ◌^◌, ◌↔◌, ℕ, List as Items, map, length, slice_index_or, All, Contains, IfOk, OnOk};
ghost use Rattle.dl_terms.specs.Roles.{named};
ghost use Rattle.dl_terms.specs.declared.role.Basic.TheVariants.{Class};
ghost use Rattle.dl_reach.specs.Digraph.{EndsBelow, max_nodes};
ghost use Rattle.dl_hier.specs.Predicates.{roles, basics, max_predicates};
ghost use Rattle.dl_hier.specs.Rows.{role_steps, concept_steps};
ghost use Rattle.dl_hier.specs.Nodes.{StandsAt, ends_of};
ghost use Rattle.dl_hier.specs.Graphs.{AreEdges, shifted};
ghost use Rattle.dl_hier.specs.Ways.{AreWaysOf};

use crate::nodes::Nodes;
use crate::ways::Ways;
use dl_terms::{Basic, NoMemory, Role};
use std::alloc::{AllocError, Global};

/// Two edges for each role inclusion: between its sides, and between their inverses.
pub(crate) fn role_edges(
    alloc: Global,
    nodes: &Nodes,
    rows: &[(Role, Role)],
) -> Result<Vec<(u32, u32)>, AllocError>
    requires { All (λ p. Contains (roles nodes.now) p.0 × Contains (roles nodes.now) p.1) rows.now }
    ensures { IfOk result (λ edges.
        AreEdges (named 0) (roles nodes.now) (role_steps rows.now) edges.items) }
{
    let mut edges = Vec::new(alloc);
    for (sub, sup) in rows {
        edges.push((node_of_role(nodes, *sub), node_of_role(nodes, *sup)))?;
        let (one, other) = (sub.inverse(), sup.inverse());
        edges.push((node_of_role(nodes, one), node_of_role(nodes, other)))?;
    }
    Ok(edges)
}

/// An edge for each concept inclusion.
fn concept_edges(
    alloc: Global,
    nodes: &Nodes,
    rows: &[(Basic, Basic)],
) -> Result<Vec<(u32, u32)>, AllocError>
    requires { All (λ p. Contains (basics nodes.now) p.0 × Contains (basics nodes.now) p.1) rows.now }
    ensures { IfOk result (λ edges.
        AreEdges (Class 0) (basics nodes.now) rows.now edges.items) }
{
    let mut edges = Vec::new(alloc);
    for (sub, sup) in rows {
        edges.push((node_of_basic(nodes, *sub), node_of_basic(nodes, *sup)))?;
    }
    Ok(edges)
}

/// Adds edges whose ends are so many nodes later.
fn push_shifted(edges: &mut Vec<(u32, u32)>, by: u32, more: &[(u32, u32)]) -> Result<(), AllocError>
    requires by { by ≤ max_nodes }
    requires ends { EndsBelow max_nodes more.now }
    ensures { OnOk result (edges.new.items ≡ edges.old.items ++ map (shifted by) more.now) }
{
    for (from, to) in more {
        edges.push((by + *from, by + *to))?;
    }
    Ok(())
}

/// An edge for each concept inclusion, and behind them one for each edge of the roles, between "some" of them.
pub(crate) fn basic_edges(
    alloc: Global,
    nodes: &Nodes,
    rows: &[(Basic, Basic)],
    role_edges: &[(u32, u32)],
) -> Result<Vec<(u32, u32)>, AllocError>
    requires rows { All (λ p. Contains (basics nodes.now) p.0 × Contains (basics nodes.now) p.1) rows.now }
    requires few { length (basics nodes.now) ≤ max_nodes }
    requires ends { EndsBelow (length (roles nodes.now)) role_edges.now }
    ensures { IfOk result (λ edges. (steps : Items (Role × Role)) →
        AreEdges (named 0) (roles nodes.now) steps role_edges.now →
        AreEdges (Class 0) (basics nodes.now) (concept_steps steps rows.now) edges.items) }
{
    let mut edges = concept_edges(alloc, nodes, rows)?;
    push_shifted(&mut edges, nodes.class_count(), role_edges)?;
    Ok(edges)
}

/// The ways of the edges of the roles, and of those of the basic concepts: in a row the roles stand first, each as
/// "some" of its inverse, and then the classes.
pub(crate) fn ways(
    alloc: Global,
    nodes: &Nodes,
    role_edges: &[(u32, u32)],
    basic_edges: &[(u32, u32)],
) -> Result<(Ways, Ways), NoMemory>
    requires few { length (basics nodes.now) ≤ max_nodes }
    requires role_ends { EndsBelow (length (roles nodes.now)) role_edges.now }
    requires basic_ends { EndsBelow (length (basics nodes.now)) basic_edges.now }
    ensures { IfOk result (λ p. AreWaysOf (length (roles nodes.now)) 0 role_edges.now p.0
        × AreWaysOf (length nodes.now.classes) (length (roles nodes.now)) basic_edges.now p.1) }
{
    let of_roles = Ways::of(alloc, nodes.role_count(), 0, role_edges)?;
    let of_basics = Ways::of(alloc, nodes.class_count(), nodes.role_count(), basic_edges)?;
    Ok((of_roles, of_basics))
}

/// The node of a role of the hierarchy.
fn node_of_role(nodes: &Nodes, role: Role) -> u32
    requires { Contains (roles nodes.now) role }
    ensures { StandsAt (roles nodes.now) result role }
{
    nodes.role(role).unwrap()
}

/// The node of a basic concept of the hierarchy.
fn node_of_basic(nodes: &Nodes, basic: Basic) -> u32
    requires { Contains (basics nodes.now) basic }
    ensures { StandsAt (basics nodes.now) result basic }
{
    nodes.basic(basic).unwrap()
}
