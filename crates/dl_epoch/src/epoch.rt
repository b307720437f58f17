// A frozen epoch.
ghost use Rattle.std.specs.Prelude.{◌≡◌, ◌≤◌, length, Contains, IfOk, MatchOption};
ghost use Rattle.std.specs.List.{All};
ghost use Rattle.std.specs.List.Sorted.{IsStrictlySortedBy};
ghost use Rattle.dl_terms.specs.Auxiliaries.{HasNoAuxiliary};
ghost use Rattle.dl_terms.specs.Below.{RoleBelow, ConceptBelow};
ghost use Rattle.dl_terms.specs.Order.{axiom_cmp};
ghost use Rattle.dl_terms.specs.Roles.{named};
ghost use Rattle.dl_terms.specs.declared.role.Basic.TheVariants.{Class};
ghost use Rattle.dl_normal.specs.Weight.{total_weight};
ghost use Rattle.dl_terms.specs.declared.role.Normal.{Normal};
ghost use Rattle.dl_normal.specs.Indexed.{IsNormalForm};
ghost use Rattle.dl_hier.specs.Hierarchy.{IsHierarchyOf};
ghost use Rattle.dl_hier.specs.Rows.{ArePredicatesOf};
ghost use Rattle.dl_numbers.specs.Numbers.{HasNumber};
ghost use Rattle.dl_epoch.specs.Known.{IsSignature, IsAxiomIn, ArePredicatesFew, max_weight};
ghost use Rattle.dl_epoch.specs.Frozen.{IsFrozen, IsHierarchyIn};
ghost use Rattle.dl_epoch.specs.Translating.{AreNumbersOf, IsOneInForest};

use crate::copy::{copied_axioms, copied_signature};
use crate::numbers::{Ranges, class_numbers, ranges_of, role_numbers};
use dl_hier::{Below, Hier};
use dl_normal::normal;
use dl_numbers::Numbering;
use dl_terms::{Axiom, List, NoMemory, Signature};
use std::alloc::Global;
use std::marker::Model;

/// An ontology with its signature, its hierarchies, and a number for each class and each role of the signature. It
/// doesn't change. Contracts see it as its id, axioms and signature, and its names in number order.
#[derive(Drop)]
pub struct Epoch {
    id: u32,
    axioms: List<Axiom>,
    signature: Signature,
    hier: Hier,
    classes: Numbering,
    roles: Numbering,
}

impl Model for Epoch {
    ghost use Rattle.dl_epoch.specs.Frozen.{Frozen};

    ghost Value = { Frozen };

    ghost use Rattle.dl_epoch.specs.Frozen.{frozen, IsFrozen, IsHierarchyIn};

    ghost view = { λ e. frozen e.id e.axioms e.signature e.classes e.roles };

    ghost invariant = { λ e. IsFrozen (frozen e.id e.axioms e.signature e.classes e.roles)
        × IsHierarchyIn (frozen e.id e.axioms e.signature e.classes e.roles) e.hier };
}

impl Epoch {
    /// The epoch of axioms and a signature. The axioms ascend strictly in axiom order and have no auxiliary role; the
    /// signature has all their names, and each of its lists ascends strictly; the weight is at most 65,536, and the
    /// names of the signature and the auxiliary roles are at most 4,096. It fails only for want of memory.
    pub fn build(
        alloc: Global,
        id: u32,
        axioms: &[Axiom],
        signature: &Signature,
    ) -> Result<Epoch, NoMemory>
        requires ascending { IsStrictlySortedBy axiom_cmp axioms.now }
        requires no_auxiliary { All HasNoAuxiliary axioms.now }
        requires known { All (IsAxiomIn signature.now) axioms.now }
        requires signature { IsSignature signature.now }
        requires weight { total_weight axioms.now ≤ max_weight }
        requires few { ArePredicatesFew signature.now axioms.now }
        ensures id { IfOk result (λ e. e.id ≡ id) }
        ensures axioms { IfOk result (λ e. e.axioms ≡ axioms.now) }
        ensures signature { IfOk result (λ e. e.signature ≡ signature.now) }
        ensures frozen { IfOk result IsFrozen }
    {
        let hier = hier_of(alloc, axioms, signature)?;
        let classes = class_numbers(alloc, &hier, signature.classes.as_slice())?;
        let roles = role_numbers(alloc, &hier, signature.roles.as_slice())?;
        let axioms = copied_axioms(alloc, axioms)?;
        let signature = copied_signature(alloc, signature)?;
        Ok(Epoch {
            id,
            axioms,
            signature,
            hier,
            classes,
            roles,
        })
    }

    /// Its id. It takes no memory.
    pub fn id(&self) -> u32
        ensures id { result ≡ self.now.id }
        ensures frozen { IsFrozen self.now }
    {
        self.id
    }

    /// Its axioms, ascending. It takes no memory.
    pub fn axioms(&self) -> &[Axiom]
        ensures { result.now ≡ self.now.axioms }
    {
        self.axioms.as_slice()
    }

    /// Its signature. It takes no memory.
    pub fn signature(&self) -> &Signature
        ensures { result.now ≡ self.now.signature }
    {
        &self.signature
    }

    /// The hierarchy of its axioms, over the names of its signature and the auxiliary roles of the axioms. It takes no
    /// memory.
    pub fn hier(&self) -> &Hier
        ensures { IsHierarchyIn self.now result.now }
    {
        &self.hier
    }

    /// The number of a class, or `None` where it isn't in the signature. It takes no memory.
    pub fn class_number(&self, name: u32) -> Option<u32>
        ensures { MatchOption result (Contains self.now.signature.classes name → ⊥) (HasNumber self.now.classes name) }
    {
        self.classes.number(name)
    }

    /// The number of a role, or `None` where it isn't in the signature. It takes no memory.
    pub fn role_number(&self, name: u32) -> Option<u32>
        ensures { MatchOption result (Contains self.now.signature.roles name → ⊥) (HasNumber self.now.roles name) }
    {
        self.roles.number(name)
    }

    /// The class with a number, which is from 1 to the count of classes. It takes no memory.
    pub fn class_name(&self, number: u32) -> u32
        requires from_one { 1 ≤ number }
        requires within { number ≤ length self.now.classes }
        ensures { HasNumber self.now.classes result number }
    {
        self.classes.name(number)
    }

    /// The role with a number, which is from 1 to the count of roles. It takes no memory.
    pub fn role_name(&self, number: u32) -> u32
        requires from_one { 1 ≤ number }
        requires within { number ≤ length self.now.roles }
        ensures { HasNumber self.now.roles result number }
    {
        self.roles.name(number)
    }

    /// The numbers, in this epoch, of exactly those predicates that are in its signature, as intervals. The predicates
    /// usually come from another epoch. Where what is below what is a forest, all that is below one class, or below one
    /// role, is one interval. It fails only for want of memory.
    pub fn translate(&self, alloc: Global, below: &Below) -> Result<Ranges, NoMemory>
        ensures classes { IfOk result (λ r. AreNumbersOf self.now.classes below.now.classes r.classes) }
        ensures forward { IfOk result (λ r. AreNumbersOf self.now.roles below.now.forward r.forward) }
        ensures backward { IfOk result (λ r. AreNumbersOf self.now.roles below.now.backward r.backward) }
        ensures one_class { IfOk result (λ r. IsOneInForest self.now.signature.classes
            (λ c d. ConceptBelow self.now.axioms (Class c) (Class d)) below.now.classes r.classes) }
        ensures one_role { IfOk result (λ r. IsOneInForest self.now.signature.roles
            (λ p q. RoleBelow self.now.axioms (named p) (named q)) below.now.forward r.forward) }
    {
        let classes = ranges_of(alloc, &self.classes, below.classes.as_slice())?;
        let forward = ranges_of(alloc, &self.roles, below.forward.as_slice())?;
        let backward = ranges_of(alloc, &self.roles, below.backward.as_slice())?;
        Ok(Ranges {
            classes,
            forward,
            backward,
        })
    }
}

/// The hierarchy of axioms over a signature.
fn hier_of(alloc: Global, axioms: &[Axiom], signature: &Signature) -> Result<Hier, NoMemory>
    requires no_auxiliary { All HasNoAuxiliary axioms.now }
    requires known { All (IsAxiomIn signature.now) axioms.now }
    requires signature { IsSignature signature.now }
    requires weight { total_weight axioms.now ≤ max_weight }
    requires few { ArePredicatesFew signature.now axioms.now }
    ensures hierarchy { IfOk result (λ h. IsHierarchyOf h axioms.now) }
    ensures classes { IfOk result (λ h. h.predicates.classes ≡ signature.now.classes) }
    ensures roles { IfOk result (λ h. h.predicates.properties ≡ signature.now.roles) }
    ensures predicates { IfOk result (λ h. (normal : Normal) → IsNormalForm axioms.now normal →
        ArePredicatesOf signature.now normal h.predicates) }
{
    let rows = normal(alloc, axioms)?;
    Hier::build(alloc, &rows, signature)
}
