//! Laws of matches, of unified terms and of disjuncts on which rewriting rests.
ghost use Rattle.std.specs.Prelude.{◌≡◌, ℕ, ◌<◌, Bool, true, false, ◌↔◌, List, [], ◌∷◌};
ghost use Rattle.dl_terms.specs.Structure.{HoldsAtName, Element, individual};
ghost use Rattle.dl_terms.specs.Answers.{value_of, IsMatch, IsCertain};
ghost use Rattle.dl_terms.specs.Queries.{IsWellFormed};
ghost use Rattle.dl_terms.specs.declared.role.Role.{Role};
ghost use Rattle.dl_terms.specs.declared.axiom.Axiom.{Axiom};
ghost use Rattle.dl_terms.specs.declared.axiom.Fact.{Fact};
ghost use Rattle.dl_terms.specs.declared.query.Term.{Term};
ghost use Rattle.dl_terms.specs.declared.query.Query.{Query};
ghost use Rattle.dl_tree.specs.Sets.{is_in, AreLinked};
ghost use Rattle.dl_rewrite.specs.Unifiers.{put_for, replaced, AreUnified, IsMostGeneralUnifier};
ghost use Rattle.dl_terms.specs.declared.query.Term.TheVariants.{Var, Name};
ghost use Rattle.dl_rewrite.specs.Parts.{AreParts, PartHas, HoldsWhere, IsAnswerWhere, AreExistential};
ghost use Rattle.std.specs.List.{Contains, AllByRecursion};
ghost use Rattle.dl_terms.specs.declared.role.Basic.TheVariants.{SomeOf};
ghost use Rattle.dl_rewrite.specs.Disjuncts.{Part, IsPart, AreToUnify, IsDisjunctOf};
ghost use Rattle.dl_rewrite.specs.OverNames.{HasOverNames, SomeHasOverNames};
ghost use Rattle.dl_rewrite.specs.Rewriting.{IsRewriting};
ghost use Rattle.dl_terms.specs.declared.query.Disjunct.{Disjunct};
ghost use Rattle.std.specs.Prelude.{map};
ghost use Rattle.dl_rewrite.specs.Known.{HasRolesOf, LinksAreKnown};
ghost use Rattle.dl_tree.specs.Below.{MayFollow};
ghost use Rattle.dl_terms.specs.declared.axiom.Fact.TheVariants.{Link};
ghost use Rattle.dl_terms.specs.declared.axiom.Signature.{Signature};
ghost use Rattle.dl_terms.specs.declared.role.Normal.{Normal};
ghost use Rattle.dl_hier.specs.Predicates.{Predicates, roles};
ghost use Rattle.dl_hier.specs.Rows.{HasInclusions, HasNames, ArePredicatesOf};

/// Where the parts of a set fold below names and the other atoms hold of names, there is a match with these names
/// outside the set. In a match the parts of the variables at unnamed elements fold below names.
pub fn matches_fold()
    ensures sound { (axioms : List Axiom) (facts : List Fact) (q : Query) (roles : List Role)
        (s : ℕ → Bool) (names : ℕ → ℕ) (parts : List (ℕ → Bool)) → AreParts q s parts
        → HoldsWhere axioms facts roles q s parts names
        → (m : ℕ → Element) × IsMatch axioms facts q m
        × ((v : ℕ) → s v ≡ false → m v ≡ individual (names v)) }
    ensures complete { (axioms : List Axiom) (facts : List Fact) (q : Query) (m : ℕ → Element)
        → IsMatch axioms facts q m → (roles : List Role)
        → ((t : Role) (a : ℕ) → HoldsAtName axioms facts (SomeOf t) a → Contains roles t)
        → (s : ℕ → Bool) → ((v : ℕ) → s v ≡ true → (m v).word ≡ [] → ⊥)
        → ((v : ℕ) → s v ≡ true → v < q.vars)
        → ((t u : Term) → AreLinked q t u → is_in s u ≡ false → (value_of m u).word ≡ [])
        → (parts : List (ℕ → Bool)) → AreParts q s parts
        → AllByRecursion (PartHas axioms facts roles q (λ v. (m v).name)) parts }
{}

/// A tuple is a certain answer exactly where it is one for some set of existential variables at elements without a
/// name.
pub fn certain_answers_split()
    ensures { (axioms : List Axiom) (facts : List Fact) (roles : List Role) (q : Query)
        (tuple : List ℕ) (parts_of : (ℕ → Bool) → List (ℕ → Bool)) → IsWellFormed q
        → ((t : Role) (a : ℕ) → HoldsAtName axioms facts (SomeOf t) a → Contains roles t)
        → ((s : ℕ → Bool) → AreExistential q s → AreParts q s (parts_of s))
        → IsCertain axioms facts q tuple
        ↔ ((s : ℕ → Bool) × AreExistential q s
        × IsAnswerWhere axioms facts roles q s (parts_of s) tuple) }
{}

/// A most general unifier grows pair by pair, by a term put for a variable; two different names have none (Robinson
/// 1965).
pub fn terms_unify()
    ensures none { IsMostGeneralUnifier [] Var }
    ensures same { (pairs : List (Term × Term)) (to : ℕ → Term) (x y : Term) → IsMostGeneralUnifier pairs to
        → put_for to x ≡ put_for to y → IsMostGeneralUnifier ((x, y) ∷ pairs) to }
    ensures put { (pairs : List (Term × Term)) (to : ℕ → Term) (x y : Term) (v : ℕ)
        → IsMostGeneralUnifier pairs to → put_for to x ≡ Var v
        → IsMostGeneralUnifier ((x, y) ∷ pairs) (λ w. replaced v (put_for to y) (to w)) }
    ensures clash { (pairs : List (Term × Term)) (to : ℕ → Term) (x y : Term) (a b : ℕ)
        → IsMostGeneralUnifier pairs to → put_for to x ≡ Name a → put_for to y ≡ Name b → (a ≡ b → ⊥)
        → (names : ℕ → ℕ)
        → ((e : Term × Term) → Contains ((x, y) ∷ pairs) e → AreUnified names e) → ⊥ }
{}

/// The disjunct of a set has a tuple over names exactly where the tuple is an answer for the set.
pub fn disjuncts_have_answers()
    ensures { (axioms : List Axiom) (facts : List Fact) (roles : List Role) (q : Query) (s : ℕ → Bool)
        (parts : List Part) (pairs : List (Term × Term)) (to : ℕ → Term)
        → ((c : Part) → Contains parts c → IsPart axioms roles q c) → AreToUnify q parts pairs
        → IsMostGeneralUnifier pairs to → (d : Disjunct) → IsDisjunctOf q s parts to d → (tuple : List ℕ)
        → HasOverNames axioms facts d tuple
        ↔ IsAnswerWhere axioms facts roles q s (map (λ c. c.set) parts) tuple }
{}

/// A rewriting has exactly the certain answers, whatever the facts.
pub fn rewriting_is_exact()
    ensures { (axioms : List Axiom) (roles : List Role) (q : Query) (ds : List Disjunct)
        → IsRewriting axioms roles q ds → IsWellFormed q → (facts : List Fact)
        → ((t : Role) (a : ℕ) → HoldsAtName axioms facts (SomeOf t) a → Contains roles t)
        → (tuple : List ℕ)
        → IsCertain axioms facts q tuple ↔ SomeHasOverNames axioms facts ds tuple }
{}

/// What may follow a role of the hierarchy is one, and so is a role by which a name has a neighbour.
pub fn roles_are_known()
    ensures follower { (axioms : List Axiom) (roles : List Role) → HasRolesOf axioms roles
        → (t u : Role) → MayFollow axioms t u → Contains roles t → Contains roles u }
    ensures at_names { (axioms : List Axiom) (roles : List Role) → HasRolesOf axioms roles
        → (facts : List Fact) → LinksAreKnown facts roles → (t : Role) (a : ℕ)
        → HoldsAtName axioms facts (SomeOf t) a → Contains roles t }
{}

/// The hierarchy of a normal form has the roles of each list of axioms with its inclusions, and those of all facts over
/// its signature.
pub fn hierarchies_have_roles()
    ensures of_axioms { (axioms : List Axiom) (signature : Signature) (normal : Normal) (p : Predicates)
        → HasInclusions axioms normal → HasNames signature normal → ArePredicatesOf signature normal p
        → HasRolesOf axioms (roles p) }
    ensures of_facts { (axioms : List Axiom) (signature : Signature) (normal : Normal) (p : Predicates)
        → HasInclusions axioms normal → HasNames signature normal → ArePredicatesOf signature normal p
        → (facts : List Fact)
        → ((q a b : ℕ) → Contains facts (Link q a b) → Contains signature.roles q)
        → LinksAreKnown facts (roles p) }
{}
