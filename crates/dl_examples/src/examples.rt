//! What the definitions give on small ontologies.
ghost use Rattle.std.specs.Prelude.{◌≡◌, ℕ, List, [], ◌∷◌, length};
ghost use Rattle.dl_terms.specs.Roles.{inverse_of};
ghost use Rattle.dl_terms.specs.NormalForm.{axiom_rows, role_in, concept_in, never};
ghost use Rattle.dl_terms.specs.Structure.{Element, IsElement, HoldsAt, individual};
ghost use Rattle.dl_terms.specs.Answers.{IsCertain, AreCertain};
ghost use Rattle.dl_terms.specs.Broken.{IsFirstBroken, NothingIsBroken};
ghost use Rattle.dl_terms.specs.Order.{axiom_cmp};
ghost use Rattle.dl_terms.specs.Queries.{IsWellFormed};
ghost use Rattle.dl_terms.specs.Reply.{IsReply, found, too_many, inconsistent};
ghost use Rattle.dl_terms.specs.Sets.{IsSetOf};
ghost use Rattle.dl_examples.specs.Examples.{class_a, class_c, class_d, role_p, role_s, p_in_c, name_a, name_b, name_c, a_is_an_a, a_and_c_are_as, p_from_a_to_b, p_from_a_to_a, a_has_a_p, a_p_has_an_s, a_p_has_a_p, p_is_a_turned_s, a_auxiliary_in_c_and_d, c_and_d_are_disjoint, p_is_asymmetric, p_is_irreflexive, an_a_is_a_d, a_is_disjoint_from_itself, b_is_an_a, s_from_a_to_b, s_from_a_to_c, s_from_b_to_a, no_p_beside_an_s, a_p_is_no_a, an_a_is_no_p, p_is_no_turned_s, has_a_p, is_p, share_a_p, has_a_p_with_an_s, some_loop, seven_in_a_row, is_s, unsafe_head, has_neighbours, some_p, with_a_p};
ghost use Rattle.dl_terms.specs.declared.role.Basic.TheVariants.{Class, SomeOf};
ghost use Rattle.dl_terms.specs.declared.role.Negative.TheVariants.{Basics, Roles, NoLoop};
ghost use Rattle.dl_terms.specs.declared.axiom.Part.TheVariants as part;
ghost use Rattle.dl_terms.specs.declared.axiom.Axiom.{Axiom};
ghost use Rattle.dl_terms.specs.declared.axiom.Axiom.TheVariants.{SubClass, EquivalentClasses, DisjointClasses, SubRole, EquivalentRoles, DisjointRoles, InverseRoles, Domain, Range, Symmetric, Asymmetric, Irreflexive};
ghost use Rattle.dl_terms.specs.declared.axiom.Fact.{Fact};
ghost use Rattle.dl_terms.specs.declared.query.Query.{Query};

/// The certain answers of small ontologies.
pub fn answer_examples()
    // A is below "some P", and a is an A: a has a neighbour without a name, and none with one.
    ensures unnamed_neighbour { IsCertain (a_has_a_p ∷ []) (a_is_an_a ∷ []) has_a_p (name_a ∷ []) }
    ensures no_named_neighbour { (tuple : List ℕ) →
        ¬ IsCertain (a_has_a_p ∷ []) (a_is_an_a ∷ []) is_p tuple }

    // With two As, a and c, each has a neighbour of its own.
    ensures not_shared { AreCertain (a_has_a_p ∷ []) a_and_c_are_as share_a_p
        ((name_a ∷ name_a ∷ []) ∷ (name_c ∷ name_c ∷ []) ∷ []) }
    ensures none_for_two { ¬ IsCertain (a_has_a_p ∷ []) a_and_c_are_as share_a_p
        (name_a ∷ name_c ∷ []) }

    // What has an incoming P has an outgoing S: an unnamed neighbour has one too.
    ensures unnamed_neighbours { IsCertain (a_has_a_p ∷ a_p_has_an_s ∷ []) (a_is_an_a ∷ [])
        has_a_p_with_an_s (name_a ∷ []) }

    // No unnamed element is its own neighbour.
    ensures no_loop { (tuple : List ℕ) →
        ¬ IsCertain (a_has_a_p ∷ []) (a_is_an_a ∷ []) some_loop tuple }

    // What has an incoming P has an outgoing P, and P(a, b): there are words of any length.
    ensures words_of_any_length { (n : ℕ) → (x : Element)
        × IsElement (a_p_has_a_p ∷ []) (p_from_a_to_b ∷ []) x × (length x.word ≡ n) }
    ensures seven_atoms { IsCertain (a_p_has_a_p ∷ []) (p_from_a_to_b ∷ []) seven_in_a_row [] }

    // P is below the inverse of S, and P(a, b).
    ensures turned { AreCertain (p_is_a_turned_s ∷ []) (p_from_a_to_b ∷ []) is_s
        ((name_b ∷ name_a ∷ []) ∷ []) }
{}

/// The first broken axioms of small ontologies.
pub fn broken_examples()
    // A below some P in C, what has an incoming P is a D, and C and D are disjoint.
    ensures at_an_unnamed { IsFirstBroken a_auxiliary_in_c_and_d (a_is_an_a ∷ []) None
        (Some c_and_d_are_disjoint) }
    ensures at_no_name { (n : ℕ) →
        HoldsAt a_auxiliary_in_c_and_d (a_is_an_a ∷ []) (Class class_c) (individual n)
        → ¬ HoldsAt a_auxiliary_in_c_and_d (a_is_an_a ∷ []) (Class class_d) (individual n) }
    ensures without_the_fact { NothingIsBroken a_auxiliary_in_c_and_d [] None }

    // P is asymmetric and irreflexive, and P(a, a). Axioms are tested in their order.
    ensures asymmetry_first { IsFirstBroken (p_is_asymmetric ∷ p_is_irreflexive ∷ [])
        (p_from_a_to_a ∷ []) None (Some p_is_asymmetric) }
    // However they are listed, their set has that order.
    ensures asymmetry_first_of_set { (axioms : List Axiom)
        → IsSetOf axiom_cmp axioms (p_is_irreflexive ∷ p_is_asymmetric ∷ [])
        → IsFirstBroken axioms (p_from_a_to_a ∷ []) None (Some p_is_asymmetric) }

    // A is below D, which stands for owl:Nothing.
    ensures nothing_is_broken { IsFirstBroken (an_a_is_a_d ∷ []) (a_is_an_a ∷ [])
        (Some class_d) None }
    ensures nothing_is_no_name { (axioms : List Axiom) (facts : List Fact) →
        ¬ IsFirstBroken axioms facts None None }

    // What has a P has no S: the two neighbours may be two.
    ensures two_neighbours { IsFirstBroken (no_p_beside_an_s ∷ [])
        (p_from_a_to_b ∷ s_from_a_to_c ∷ []) None (Some no_p_beside_an_s) }

    // What has an incoming P is no A, with either operand first: the A is b, to which P leads from a.
    ensures some_first { IsFirstBroken (a_p_is_no_a ∷ [])
        (p_from_a_to_b ∷ b_is_an_a ∷ []) None (Some a_p_is_no_a) }
    ensures some_second { IsFirstBroken (an_a_is_no_p ∷ [])
        (p_from_a_to_b ∷ b_is_an_a ∷ []) None (Some an_a_is_no_p) }
    ensures some_at_the_other_end { NothingIsBroken (a_p_is_no_a ∷ []) (p_from_a_to_b ∷ a_is_an_a ∷ []) None }

    // P is disjoint from the inverse of S: P(a, b) with S(b, a), and not with S(a, b).
    ensures turned_roles { IsFirstBroken (p_is_no_turned_s ∷ [])
        (p_from_a_to_b ∷ s_from_b_to_a ∷ []) None (Some p_is_no_turned_s) }
    ensures roles_of_one_direction { NothingIsBroken (p_is_no_turned_s ∷ []) (p_from_a_to_b ∷ s_from_a_to_b ∷ []) None }

    // P is irreflexive: P(a, a) breaks that, and P(a, b) doesn't.
    ensures a_loop { IsFirstBroken (p_is_irreflexive ∷ []) (p_from_a_to_a ∷ []) None
        (Some p_is_irreflexive) }
    ensures two_ends { NothingIsBroken (p_is_irreflexive ∷ []) (p_from_a_to_b ∷ []) None }

    // A is disjoint from itself: operands are read by position.
    ensures by_position { IsFirstBroken (a_is_disjoint_from_itself ∷ []) (a_is_an_a ∷ []) None
        (Some a_is_disjoint_from_itself) }
{}

/// The defined replies of small ontologies.
pub fn reply_examples()
    // Two answers, where as many are let through, and where one is.
    ensures as_many_as_the_limit { IsReply (a_has_a_p ∷ []) a_and_c_are_as None share_a_p 2
        (found ((name_a ∷ name_a ∷ []) ∷ (name_c ∷ name_c ∷ []) ∷ [])) }
    ensures one_over_the_limit { IsReply (a_has_a_p ∷ []) a_and_c_are_as None share_a_p 1 too_many }

    // Where something is broken, that is the reply to each query.
    ensures broken { (q : Query) (limit : ℕ) →
        IsReply a_auxiliary_in_c_and_d (a_is_an_a ∷ []) None q limit
        (inconsistent (Some c_and_d_are_disjoint)) }
{}

/// Queries that are well formed, and some that are not.
pub fn query_examples()
    ensures eight_existential { IsWellFormed (has_neighbours 8) }
    ensures nine_existential { ¬ IsWellFormed (has_neighbours 9) }
    ensures unsafe_head { ¬ IsWellFormed unsafe_head }

    ensures no_atom { ¬ IsWellFormed (some_p 0) }
    ensures sixteen_atoms { IsWellFormed (some_p 16) }
    ensures seventeen_atoms { ¬ IsWellFormed (some_p 17) }
    ensures sixteen_places { IsWellFormed (with_a_p 16) }
    ensures seventeen_places { ¬ IsWellFormed (with_a_p 17) }
{}

/// The rows of the normal form of an axiom of each kind, in order within the axiom.
pub fn normal_form_examples()
    ensures sub_class { axiom_rows (SubClass (Class class_a)
        (part.Thing ∷ part.Class class_c ∷ part.Any role_s ∷ part.Fill role_p class_c
        ∷ part.Not (Class class_d) ∷ []))
        ≡ concept_in (Class class_a) (Class class_c)
        ∷ concept_in (Class class_a) (SomeOf role_s)
        ∷ concept_in (Class class_a) (SomeOf p_in_c)
        ∷ role_in p_in_c role_p
        ∷ concept_in (SomeOf (inverse_of p_in_c)) (Class class_c)
        ∷ never (Basics (Class class_a) (Class class_d))
        ∷ [] }
    ensures equivalent_classes { axiom_rows
        (EquivalentClasses (Class class_a ∷ SomeOf role_p ∷ Class class_d ∷ []))
        ≡ concept_in (Class class_a) (SomeOf role_p)
        ∷ concept_in (SomeOf role_p) (Class class_d)
        ∷ concept_in (Class class_d) (Class class_a)
        ∷ [] }
    ensures disjoint_classes { axiom_rows
        (DisjointClasses (Class class_a ∷ SomeOf role_p ∷ Class class_d ∷ []))
        ≡ never (Basics (Class class_a) (SomeOf role_p))
        ∷ never (Basics (Class class_a) (Class class_d))
        ∷ never (Basics (SomeOf role_p) (Class class_d))
        ∷ [] }
    ensures sub_role { axiom_rows (SubRole role_p (inverse_of role_s)) ≡
        role_in role_p (inverse_of role_s) ∷ [] }
    ensures equivalent_roles { axiom_rows
        (EquivalentRoles (role_p ∷ role_s ∷ inverse_of role_p ∷ []))
        ≡ role_in role_p role_s
        ∷ role_in role_s (inverse_of role_p)
        ∷ role_in (inverse_of role_p) role_p
        ∷ [] }
    ensures disjoint_roles { axiom_rows (DisjointRoles (role_p ∷ role_s ∷ inverse_of role_p ∷ []))
        ≡ never (Roles role_p role_s)
        ∷ never (Roles role_p (inverse_of role_p))
        ∷ never (Roles role_s (inverse_of role_p))
        ∷ [] }
    ensures inverse_roles { axiom_rows (InverseRoles role_p role_s)
        ≡ role_in role_p (inverse_of role_s) ∷ role_in (inverse_of role_s) role_p ∷ [] }

    // A domain is as a class axiom of "some r", and a range as one of "some inverse of r".
    ensures domain { axiom_rows (Domain role_s (part.Class class_c ∷ part.Fill role_p class_c ∷ []))
        ≡ concept_in (SomeOf role_s) (Class class_c)
        ∷ concept_in (SomeOf role_s) (SomeOf p_in_c)
        ∷ role_in p_in_c role_p
        ∷ concept_in (SomeOf (inverse_of p_in_c)) (Class class_c)
        ∷ [] }
    ensures range { axiom_rows (Range role_s (part.Any role_p ∷ part.Not (Class class_d) ∷ []))
        ≡ concept_in (SomeOf (inverse_of role_s)) (SomeOf role_p)
        ∷ never (Basics (SomeOf (inverse_of role_s)) (Class class_d))
        ∷ [] }
    ensures symmetric { axiom_rows (Symmetric role_p) ≡ role_in role_p (inverse_of role_p) ∷ [] }
    ensures asymmetric { axiom_rows (Asymmetric role_p) ≡
        never (Roles role_p (inverse_of role_p)) ∷ [] }
    ensures irreflexive { axiom_rows (Irreflexive role_p) ≡ never (NoLoop role_p) ∷ [] }

    // The inverse of an inverse is the role itself.
    ensures of_an_inverse { axiom_rows (Symmetric (inverse_of role_p)) ≡
        role_in (inverse_of role_p) role_p ∷ [] }
{}
