// The orders of roles, axioms and facts are total, and what compares equal is the same.
ghost use Rattle.std.specs.Prelude.{◌≡◌};
ghost use Rattle.std.specs.declared.cmp.Ordering.TheVariants.{Equal};
ghost use Rattle.std.specs.Cmp.{IsTotalOrder};
ghost use Rattle.dl_terms.specs.Order.{role_cmp, axiom_cmp, fact_cmp};
ghost use Rattle.dl_terms.specs.declared.role.Role.{Role};
ghost use Rattle.dl_terms.specs.declared.axiom.Axiom.{Axiom};
ghost use Rattle.dl_terms.specs.declared.axiom.Fact.{Fact};

use crate::{Axiom, Fact, Role};

/// The law of the order of roles, which is `Role`'s `Ord`: it is total, and roles that compare equal are the same.
pub fn roles_are_ordered()
    ensures derived { (r s : Role) → ⟦<Role as Ord>⟧.cmp r s ≡ role_cmp r s }
    ensures total { IsTotalOrder role_cmp }
    ensures equal { (r s : Role) → role_cmp r s ≡ Equal → r ≡ s }
{}

/// The law of the order of axioms, which is `Axiom`'s `Ord`: it is total, and axioms that compare equal are the same.
pub fn axioms_are_ordered()
    ensures derived { (a b : Axiom) → ⟦<Axiom as Ord>⟧.cmp a b ≡ axiom_cmp a b }
    ensures total { IsTotalOrder axiom_cmp }
    ensures equal { (a b : Axiom) → axiom_cmp a b ≡ Equal → a ≡ b }
{}

/// The law of the order of facts, which is `Fact`'s `Ord`: it is total, and facts that compare equal are the same.
pub fn facts_are_ordered()
    ensures derived { (a b : Fact) → ⟦<Fact as Ord>⟧.cmp a b ≡ fact_cmp a b }
    ensures total { IsTotalOrder fact_cmp }
    ensures equal { (a b : Fact) → fact_cmp a b ≡ Equal → a ≡ b }
{}
