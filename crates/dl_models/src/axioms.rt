// The axioms that a finite interpretation accepts.
ghost use Rattle.std.specs.Prelude.{◌≡◌, ◌↔◌, IsTrue};
ghost use Rattle.dl_terms.specs.declared.axiom.Axiom.TheVariants.{InverseRoles, Domain, Range, Symmetric, Asymmetric};
ghost use Rattle.dl_models.specs.Meaning.{Accepts};
ghost use Rattle.dl_models.specs.Structures.{finite};

use crate::Interp;
use crate::operands::{are_apart, are_same};
use crate::pairs::{role_is_apart, role_is_within};
use crate::sets::{is_irreflexive, is_within_parts};
use dl_terms::{Axiom, Basic, Part, Role};

impl Interp {
    /// Whether the interpretation satisfies an axiom by its meaning in OWL 2. It takes no memory.
    pub fn accepts_axiom(&self, axiom: &Axiom) -> bool
        ensures { IsTrue result ↔ Accepts (finite self.now) «axiom».now }
    {
        match axiom {
            Axiom::SubClass { sub, sup } => is_within_parts(self, *sub, sup.as_slice()),
            Axiom::EquivalentClasses(classes) => are_same(self, classes.as_slice()),
            Axiom::DisjointClasses(classes) => are_apart(self, classes.as_slice()),
            Axiom::SubRole { sub, sup } => role_is_within(self, *sub, *sup),
            Axiom::EquivalentRoles(roles) => are_same(self, roles.as_slice()),
            Axiom::DisjointRoles(roles) => are_apart(self, roles.as_slice()),
            Axiom::InverseRoles { one, two } => are_inverse(self, *one, *two),
            Axiom::Domain { role, sup } => domain_is_within(self, *role, sup.as_slice()),
            Axiom::Range { role, sup } => range_is_within(self, *role, sup.as_slice()),
            Axiom::Symmetric(role) => is_symmetric(self, *role),
            Axiom::Asymmetric(role) => is_asymmetric(self, *role),
            Axiom::Irreflexive(role) => is_irreflexive(self, *role),
        }
    }
}

/// Whether a role has the pairs of another, turned.
fn are_inverse(model: &Interp, one: Role, two: Role) -> bool
    ensures { IsTrue result ↔ Accepts (finite model.now) (InverseRoles one two) }
{
    let inverse = two.inverse();
    let to = role_is_within(model, one, inverse);
    let back = role_is_within(model, inverse, one);
    to && back
}

/// Whether the first element of each pair of a role is in each part.
fn domain_is_within(model: &Interp, role: Role, parts: &[Part]) -> bool
    ensures { IsTrue result ↔ Accepts (finite model.now) (Domain role parts.now) }
{
    is_within_parts(model, Basic::SomeOf(role), parts)
}

/// Whether the second element of each pair of a role is in each part.
fn range_is_within(model: &Interp, role: Role, parts: &[Part]) -> bool
    ensures { IsTrue result ↔ Accepts (finite model.now) (Range role parts.now) }
{
    let inverse = role.inverse();
    is_within_parts(model, Basic::SomeOf(inverse), parts)
}

/// Whether each pair of a role is one of it turned.
fn is_symmetric(model: &Interp, role: Role) -> bool
    ensures { IsTrue result ↔ Accepts (finite model.now) (Symmetric role) }
{
    let inverse = role.inverse();
    role_is_within(model, role, inverse)
}

/// Whether no pair of a role is one of it turned.
fn is_asymmetric(model: &Interp, role: Role) -> bool
    ensures { IsTrue result ↔ Accepts (finite model.now) (Asymmetric role) }
{
    let inverse = role.inverse();
    role_is_apart(model, role, inverse)
}
