// Equivalence and disjointness of the operands of an axiom, basic concepts or roles.
ghost use Rattle.std.specs.Prelude.{ℕ, ◌<◌, ◌↔◌, List, All, IsTrue};
ghost use Rattle.std.specs.List.{AllPairs, Contains};
ghost use Rattle.dl_models.specs.declared.interp.Interp.{Interp as Model};
ghost use Rattle.dl_models.specs.Meaning.{IsWithin, IsApart, RoleIsWithin, RoleIsApart};
ghost use Rattle.dl_models.specs.Structures.{finite};

use crate::Interp;
use crate::pairs::{role_is_apart, role_is_within};
use crate::sets::{is_apart, is_within};
use dl_terms::{Basic, Role};

/// What an axiom of equivalence or disjointness has as operands: something that is a set in an interpretation.
pub(crate) trait Operand: Copy + Drop {
    ghost within: { Model → Self → Self → Type 0 };

    ghost apart: { Model → Self → Self → Type 0 };

    ghost refl: { (i : Model) (a : Self) → within i a a };

    ghost trans: { (i : Model) (a b c : Self) → within i a b → within i b c → within i a c };

    /// Whether all of it is in another.
    fn is_within(self, other: Self, model: &Interp) -> bool
        ensures { IsTrue result ↔ within model.now self other };

    /// Whether it shares nothing with another.
    fn is_apart(self, other: Self, model: &Interp) -> bool
        ensures { IsTrue result ↔ apart model.now self other };
}

impl Operand for Basic {
    ghost within = { λ i b c. IsWithin (finite i) b c };

    ghost apart = { λ i b c. IsApart (finite i) b c };

    ghost refl = { λ i b x e h. h };

    ghost trans = { λ i b c d f g x e h. g x e (f x e h) };

    fn is_within(self, other: Basic, model: &Interp) -> bool {
        is_within(model, self, other)
    }

    fn is_apart(self, other: Basic, model: &Interp) -> bool {
        is_apart(model, self, other)
    }
}

impl Operand for Role {
    ghost within = { λ i r s. RoleIsWithin (finite i) r s };

    ghost apart = { λ i r s. RoleIsApart (finite i) r s };

    ghost refl = { λ i r x y e f h. h };

    ghost trans = { λ i r s t f g x y a b h. g x y a b (f x y a b h) };

    fn is_within(self, other: Role, model: &Interp) -> bool {
        role_is_within(model, self, other)
    }

    fn is_apart(self, other: Role, model: &Interp) -> bool {
        role_is_apart(model, self, other)
    }
}

/// Whether an operand is the same set as another.
fn is_same<T: Operand>(model: &Interp, one: T, two: T) -> bool
    ensures { IsTrue result ↔ (T.within model.now one two × T.within model.now two one) }
{
    let to = one.is_within(two, model);
    let back = two.is_within(one, model);
    to && back
}

/// Whether all operands are the same set.
pub(crate) fn are_same<T: Operand>(model: &Interp, operands: &[T]) -> bool
    ensures { IsTrue result ↔ ((a b : T) → Contains operands.now a → Contains operands.now b
        → T.within model.now a b) }
{
    let Some((first, rest)) = operands.split_first() else {
        return true;
    };
    for next in rest {
        if !is_same(model, *first, *next) {
            return false;
        }
    }
    true
}

/// Whether an operand shares nothing with each of others.
fn is_apart_from_each<T: Operand>(model: &Interp, operand: T, others: &[T]) -> bool
    ensures { IsTrue result ↔ All (T.apart model.now operand) others.now }
{
    for other in others {
        if !operand.is_apart(*other, model) {
            return false;
        }
    }
    true
}

/// Whether the operands at any two different places share nothing.
pub(crate) fn are_apart<T: Operand>(model: &Interp, operands: &[T]) -> bool
    ensures { IsTrue result ↔ AllPairs (T.apart model.now) operands.now }
{
    for (i, operand) in operands.iter().enumerate() {
        if !is_apart_from_each(model, *operand, &operands[i + 1..]) {
            return false;
        }
    }
    true
}
