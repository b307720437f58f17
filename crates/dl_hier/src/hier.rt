ghost use Rattle.std.specs.Prelude.{◌≡◌, ℕ, ◌+◌, ◌<◌, ◌≤◌, ◌↔◌, ◌⊎◌, [], ◌∷◌, List as Items, true, length, slice_index_or, Contains, IfOk, IsTrue, OnOk};
ghost use Rattle.std.specs.List.Sorted.{IsStrictlySortedBy};
ghost use Rattle.dl_terms.specs.Order.{role_cmp};
ghost use Rattle.dl_terms.specs.Roles.{named, inverse_of};
ghost use Rattle.dl_terms.specs.Below.{RoleBelow, ConceptBelow};
ghost use Rattle.dl_terms.specs.declared.role.Role.{Role};
ghost use Rattle.dl_terms.specs.declared.role.Basic.TheVariants.{Class, SomeOf};
ghost use Rattle.dl_terms.specs.declared.axiom.Axiom.{Axiom};
ghost use Rattle.dl_reach.specs.Chain.{Chain};
ghost use Rattle.dl_reach.specs.Digraph.{IsEdge};
ghost use Rattle.dl_reach.specs.Rows.{row_has};
ghost use Rattle.dl_hier.specs.Predicates.{roles, basics};
ghost use Rattle.dl_hier.specs.Rows.{HasInclusions, HasNames, AreFew, ArePredicatesOf};
ghost use Rattle.dl_hier.specs.Hierarchy.{IsHierarchyOf};
ghost use Rattle.dl_hier.specs.Below.{IsBelowOneOf, AreThose};
ghost use Rattle.dl_hier.specs.Picking.{AreTargets};

use crate::below::{Below, names_leading, roles_reached};
use crate::edges::{basic_edges, role_edges, ways};
use crate::nodes::Nodes;
use crate::ways::Ways;
use dl_reach::Closure;
use dl_terms::{Basic, List, NoMemory, Normal, Role, Signature};
use std::alloc::{AllocError, Global};
use std::marker::Model;

/// What is below what among the roles and the basic concepts of a signature and a normal form. What isn't in the
/// hierarchy is below itself alone. A clause on it holds of every list of axioms of which it is the hierarchy: of all
/// whose normal form has the inclusions that it was built from.
#[derive(Drop)]
pub struct Hier {
    nodes: Nodes,
    roles: List<Role>,
    role_ways: Ways,
    basic_ways: Ways,
}

impl Model for Hier {
    ghost use Rattle.dl_hier.specs.Hierarchy.{Hierarchy};
    ghost use Rattle.dl_hier.specs.Graphs.{hierarchy_over, AreWaysFor};

    ghost Value = { Hierarchy };

    ghost view = { λ h. hierarchy_over h.nodes h.role_ways.graph h.basic_ways.graph };

    ghost invariant = { λ h. AreWaysFor h.nodes h.roles h.role_ways h.basic_ways };
}

impl Hier {
    /// The hierarchy of the inclusions of a normal form, over the predicates of a signature, which has their names.
    /// Classes, roles and auxiliary roles together are at most 4,096. Fails only for want of memory.
    pub fn build(alloc: Global, normal: &Normal, signature: &Signature) -> Result<Hier, NoMemory>
        requires names { HasNames signature.now normal.now }
        requires few { AreFew signature.now normal.now }
        ensures predicates { IfOk result (λ h.
            ArePredicatesOf signature.now normal.now h.predicates) }
        ensures hierarchy { IfOk result (λ h. (axioms : Items Axiom) →
            HasInclusions axioms normal.now → IsHierarchyOf h axioms) }
    {
        let nodes = Nodes::of(alloc, normal, signature)?;
        let roles = nodes.roles(alloc)?;
        let role_edges = role_edges(alloc, &nodes, normal.roles.as_slice())?;
        let concepts = normal.concepts.as_slice();
        let basic_edges = basic_edges(alloc, &nodes, concepts, &role_edges)?;
        let (role_ways, basic_ways) = ways(alloc, &nodes, &role_edges, &basic_edges)?;
        Ok(Hier {
            nodes,
            roles,
            role_ways,
            basic_ways,
        })
    }

    /// Whether one role is below another: whether a chain of role inclusions, or of their inverses, leads from the
    /// one to the other. It takes no memory.
    pub fn role_below(&self, sub: Role, sup: Role) -> bool
        ensures { (axioms : Items Axiom) → IsHierarchyOf self.now axioms →
            (IsTrue result ↔ RoleBelow axioms sub sup) }
    {
        match self.nodes.role(sub) {
            Some(from) => match self.nodes.role(sup) {
                Some(to) => self.role_ways.has(from, to),
                None => false,
            },
            None => are_same_roles(sub, sup),
        }
    }

    /// Whether one basic concept is below another: whether a chain leads from the one to the other, each step a
    /// concept inclusion, or a step from "some r" to "some s" with r below s. It takes no memory.
    pub fn basic_below(&self, sub: Basic, sup: Basic) -> bool
        ensures { (axioms : Items Axiom) → IsHierarchyOf self.now axioms →
            (IsTrue result ↔ ConceptBelow axioms sub sup) }
    {
        match self.nodes.basic(sub) {
            Some(from) => match self.nodes.basic(sup) {
                Some(to) => self.basic_ways.has(from, to),
                None => false,
            },
            None => are_same_basics(sub, sup),
        }
    }

    /// Which classes of the signature are below which, as the closure of a graph whose nodes are their places: a chain
    /// leads from what is below to what is above. Fails only for want of memory.
    pub fn class_order(&self, alloc: Global) -> Result<Closure, NoMemory>
        ensures count { IfOk result (λ order. order.nodes ≡ length self.now.predicates.classes) }
        ensures below { IfOk result (λ order. (axioms : Items Axiom) → IsHierarchyOf self.now axioms
            → (i j : ℕ) → i < length self.now.predicates.classes → j < length self.now.predicates.classes
            → Chain (IsEdge order) i j
            ↔ ConceptBelow axioms (Class (slice_index_or self.now.predicates.classes i 0))
            (Class (slice_index_or self.now.predicates.classes j 0))) }
    {
        self.basic_ways.among(alloc, 0, 1, self.nodes.class_count())
    }

    /// Which object properties of the signature are below which, in the same way. Fails only for want of memory.
    pub fn role_order(&self, alloc: Global) -> Result<Closure, NoMemory>
        ensures count { IfOk result (λ order. order.nodes ≡ length self.now.predicates.properties) }
        ensures below { IfOk result (λ order. (axioms : Items Axiom) → IsHierarchyOf self.now axioms
            → (i j : ℕ) → i < length self.now.predicates.properties
            → j < length self.now.predicates.properties → Chain (IsEdge order) i j
            ↔ RoleBelow axioms (named (slice_index_or self.now.predicates.properties i 0))
            (named (slice_index_or self.now.predicates.properties j 0))) }
    {
        let count = self.nodes.properties().len() as u32;
        self.role_ways.among(alloc, 0, 2, count)
    }

    /// The roles of the hierarchy, ascending, each once: every object property of the signature and every auxiliary
    /// role that the normal form names, each plain and inverse. It takes no memory.
    pub fn roles(&self) -> &[Role]
        ensures roles { result.now ≡ roles self.now.predicates }
        ensures ascending { IsStrictlySortedBy role_cmp result.now }

        // What is below or above another role is among them, and so is each r with "some r" below or above another.
        ensures known { (axioms : Items Axiom) → IsHierarchyOf self.now axioms →
            (r s : Role) → RoleBelow axioms r s →
            (r ≡ s) ⊎ (Contains result.now r × Contains result.now s) }
        ensures known_by_concepts { (axioms : Items Axiom) → IsHierarchyOf self.now axioms →
            (r s : Role) → ConceptBelow axioms (SomeOf r) (SomeOf s) →
            (r ≡ s) ⊎ (Contains result.now r × Contains result.now s) }
    {
        self.roles.as_slice()
    }

    /// The predicates below one of the basic concepts, each list ascending: the classes of the signature, the object
    /// properties P of it with "some P" below one, and those with "some inverse of P" below one. Fails only for want
    /// of memory.
    pub fn predicates_below(&self, alloc: Global, basics: &[Basic]) -> Result<Below, NoMemory>
        ensures classes { IfOk result (λ below.
            (axioms : Items Axiom) → IsHierarchyOf self.now axioms →
            AreThose self.now.predicates.classes
            (λ c. IsBelowOneOf axioms basics.now (Class c)) below.classes) }
        ensures forward { IfOk result (λ below.
            (axioms : Items Axiom) → IsHierarchyOf self.now axioms →
            AreThose self.now.predicates.properties
            (λ p. IsBelowOneOf axioms basics.now (SomeOf (named p))) below.forward) }
        ensures backward { IfOk result (λ below.
            (axioms : Items Axiom) → IsHierarchyOf self.now axioms →
            AreThose self.now.predicates.properties
            (λ p. IsBelowOneOf axioms basics.now (SomeOf (inverse_of (named p)))) below.backward) }
    {
        let targets = targets(alloc, &self.nodes, basics)?;
        let ways = &self.basic_ways;
        let classes = self.nodes.classes();
        let properties = self.nodes.properties();
        let count = self.nodes.class_count();
        Ok(Below {
            classes: names_leading(alloc, ways, classes, 0, 1, &targets)?,
            forward: names_leading(alloc, ways, properties, count, 2, &targets)?,
            backward: names_leading(alloc, ways, properties, count + 1, 2, &targets)?,
        })
    }

    /// The object properties of the signature below a role, each list ascending: the P that are below it, and those
    /// whose inverse is. There are no classes. Fails only for want of memory.
    pub fn roles_below(&self, alloc: Global, role: Role) -> Result<Below, NoMemory>
        ensures classes { IfOk result (λ below. below.classes ≡ []) }
        ensures forward { IfOk result (λ below.
            (axioms : Items Axiom) → IsHierarchyOf self.now axioms →
            AreThose self.now.predicates.properties
            (λ p. RoleBelow axioms (named p) role) below.forward) }
        ensures backward { IfOk result (λ below.
            (axioms : Items Axiom) → IsHierarchyOf self.now axioms →
            AreThose self.now.predicates.properties
            (λ p. RoleBelow axioms (inverse_of (named p)) role) below.backward) }
    {
        let targets = role_targets(alloc, &self.nodes, role)?;
        let ways = &self.role_ways;
        let properties = self.nodes.properties();
        Ok(Below {
            classes: List::new(alloc),
            forward: names_leading(alloc, ways, properties, 0, 2, &targets)?,
            backward: names_leading(alloc, ways, properties, 1, 2, &targets)?,
        })
    }

    /// The roles of the hierarchy that a role is below, ascending. Fails only for want of memory.
    pub fn roles_above(&self, alloc: Global, role: Role) -> Result<List<Role>, NoMemory>
        ensures ascending { IfOk result (IsStrictlySortedBy role_cmp) }
        ensures exact { IfOk result (λ found.
            (axioms : Items Axiom) → IsHierarchyOf self.now axioms → (s : Role) → Contains found s
            ↔ (Contains (roles self.now.predicates) s × RoleBelow axioms role s)) }
    {
        match self.nodes.role(role) {
            Some(from) => { roles_reached(alloc, &self.role_ways, from, self.roles.as_slice(), 0) }
            None => Ok(List::new(alloc)),
        }
    }

    /// The roles of the hierarchy that may follow a role in the words of unnamed elements, ascending: the t with
    /// "some inverse of the role" below "some t". Fails only for want of memory.
    pub fn followers(&self, alloc: Global, role: Role) -> Result<List<Role>, NoMemory>
        ensures ascending { IfOk result (IsStrictlySortedBy role_cmp) }
        ensures exact { IfOk result (λ found.
            (axioms : Items Axiom) → IsHierarchyOf self.now axioms → (t : Role) → Contains found t
            ↔ (Contains (roles self.now.predicates) t
            × ConceptBelow axioms (SomeOf (inverse_of role)) (SomeOf t))) }
    {
        let first = self.nodes.class_count();
        match self.nodes.basic(Basic::SomeOf(role.inverse())) {
            Some(from) => {
                roles_reached(alloc, &self.basic_ways, from, self.roles.as_slice(), first)
            }
            None => Ok(List::new(alloc)),
        }
    }

    /// The roles of the hierarchy below a role, as bits: that of the i-th role of `roles` is bit `i % 64`, from the
    /// lowest, of the word `i / 64`. There may be fewer words, or more. It takes no memory.
    pub fn bits_below(&self, role: Role) -> &[u64]
        ensures { (axioms : Items Axiom) → IsHierarchyOf self.now axioms →
            (i : ℕ) → i < length (roles self.now.predicates) → (row_has result.now i ≡ true)
            ↔ RoleBelow axioms (slice_index_or (roles self.now.predicates) i (named 0)) role }
    {
        match self.nodes.role(role) {
            Some(node) => self.role_ways.row(node),
            None => &[],
        }
    }

    /// The roles t of the hierarchy with "some inverse of t" below a basic concept, as bits in the same way: those at
    /// whose words in the canonical structure it holds. It takes no memory.
    pub fn bits_leading(&self, basic: Basic) -> &[u64]
        ensures { (axioms : Items Axiom) → IsHierarchyOf self.now axioms →
            (i : ℕ) → i < length (roles self.now.predicates) → (row_has result.now i ≡ true)
            ↔ ConceptBelow axioms (SomeOf (inverse_of (slice_index_or (roles self.now.predicates) i (named 0)))) basic }
    {
        match self.nodes.basic(basic) {
            Some(node) => self.basic_ways.row(node),
            None => &[],
        }
    }
}

/// The nodes of those basic concepts that are in the hierarchy.
fn targets(alloc: Global, nodes: &Nodes, terms: &[Basic]) -> Result<Vec<u32>, AllocError>
    ensures { IfOk result (λ targets. AreTargets (basics nodes.now) terms.now targets.items) }
{
    let mut targets = Vec::new(alloc);
    for term in terms {
        match nodes.basic(*term) {
            Some(node) => targets.push(node)?,
            None => (),
        }
    }
    Ok(targets)
}

/// The node of a role that is in the hierarchy.
fn role_targets(alloc: Global, nodes: &Nodes, role: Role) -> Result<Vec<u32>, AllocError>
    ensures { IfOk result (λ targets. AreTargets (roles nodes.now) (role ∷ []) targets.items) }
{
    let mut targets = Vec::new(alloc);
    if let Some(node) = nodes.role(role) {
        targets.push(node)?;
    }
    Ok(targets)
}

fn are_same_roles(one: Role, other: Role) -> bool
    ensures { IsTrue result ↔ (one ≡ other) }
{
    one == other
}

fn are_same_basics(one: Basic, other: Basic) -> bool
    ensures { IsTrue result ↔ (one ≡ other) }
{
    one == other
}
