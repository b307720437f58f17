//! Which sets of variables of small queries fold into the trees of roles.
ghost use Rattle.std.specs.Prelude.{◌≡◌, ℕ, Bool, true, List, [], ◌∷◌};
ghost use Rattle.dl_terms.specs.declared.role.Role.{Role};
ghost use Rattle.dl_terms.specs.declared.axiom.Axiom.{Axiom};
ghost use Rattle.dl_terms.specs.declared.query.Term.{Term};
ghost use Rattle.dl_tree.specs.Sets.{IsConnected, IsOutsideNeighbour};
ghost use Rattle.dl_tree.specs.Folds.{IsTreeWitness};
ghost use Rattle.dl_examples.specs.Examples.{role_p, role_s, a_has_a_p, a_p_has_an_s, a_p_has_a_p, has_a_p_with_an_s, share_a_p, some_loop};
ghost use Rattle.dl_examples.specs.Folds.{one_and_two, two_alone, first_three, two_in_a_row};

/// Sets that fold, and sets that do not.
pub fn fold_examples()
    // y and z of q(x) :- P(x, y), S(y, z) fold into the tree of P, and not into that of S.
    ensures connected { IsConnected has_a_p_with_an_s one_and_two }
    ensures two_deep { (words : ℕ → List Role)
        × IsTreeWitness (a_has_a_p ∷ a_p_has_an_s ∷ []) has_a_p_with_an_s one_and_two role_p words }
    ensures not_by_s { (words : ℕ → List Role) →
        ¬ IsTreeWitness (a_has_a_p ∷ a_p_has_an_s ∷ []) has_a_p_with_an_s one_and_two role_s words }
    // No variable with a loop folds.
    ensures no_loop { (axioms : List Axiom) (s : ℕ → Bool) (t : Role) (words : ℕ → List Role)
        → s 0 ≡ true → ¬ IsTreeWitness axioms some_loop s t words }
    // y of q(x, z) :- P(x, y), P(z, y) folds with both its outside neighbours at the root.
    ensures two_neighbours { (axioms : List Axiom) → (words : ℕ → List Role)
        × IsTreeWitness axioms share_a_p two_alone role_p words }
    // All variables of q() :- P(v0, v1), P(v1, v2) fold, and have no outside neighbour.
    ensures without_neighbours { (words : ℕ → List Role)
        × IsTreeWitness (a_p_has_a_p ∷ []) two_in_a_row first_three role_p words }
    ensures none_outside { (u : Term) → ¬ IsOutsideNeighbour two_in_a_row first_three u }
{}
