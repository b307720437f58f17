//! Laws of words and of folds on which the table rests.
ghost use Rattle.std.specs.Prelude.{◌≡◌, ℕ, ◌<◌, Bool, true, false, ◌↔◌, List, [], ◌∷◌};
ghost use Rattle.dl_terms.specs.Chain.{Chain};
ghost use Rattle.dl_terms.specs.Structure.{Element, child, individual, Follows, IsElement, HoldsAt, Joins};
ghost use Rattle.dl_terms.specs.Answers.{value_of, IsMatch};
ghost use Rattle.dl_terms.specs.declared.role.Role.{Role};
ghost use Rattle.dl_terms.specs.declared.role.Basic.{Basic};
ghost use Rattle.dl_terms.specs.declared.axiom.Axiom.{Axiom};
ghost use Rattle.dl_terms.specs.declared.axiom.Fact.{Fact};
ghost use Rattle.dl_terms.specs.declared.query.Term.{Term};
ghost use Rattle.dl_terms.specs.declared.query.Query.{Query};
ghost use Rattle.dl_tree.specs.Sets.{IsConnected, IsOutsideNeighbour};
ghost use Rattle.dl_tree.specs.Folds.{HoldsAtWord, JoinsWords, IsTreeWitness};
ghost use Rattle.dl_tree.specs.Words.{beneath};
ghost use Rattle.dl_tree.specs.Below.{minus, MayFollow, FoldsBelow, SplitsAt, SplitsAtSome, IsClosedIn};
/// What lies below an element depends on the last role of its word alone: which words may follow,
/// what holds there, and what is joined.
pub fn below_depends_on_the_last_role()
    ensures elements { (axioms : List Axiom) (facts : List Fact) (x : Element) (r : Role) (w : List Role)
        → IsElement axioms facts (child x r)
        → IsElement axioms facts (beneath (child x r) w) ↔ Follows axioms r w }
    ensures holds { (axioms : List Axiom) (facts : List Fact) (b : Basic) (x : Element) (r : Role)
        (w : List Role) →
        HoldsAt axioms facts b (beneath (child x r) w) ↔ HoldsAtWord axioms b (r ∷ w) }
    ensures joins { (axioms : List Axiom) (facts : List Fact) (s : Role) (x : Element) (r : Role)
        (u w : List Role) →
        Joins axioms facts s (beneath (child x r) u) (beneath (child x r) w)
        ↔ JoinsWords axioms s (r ∷ u) (r ∷ w) }
{}

/// Unnamed elements that are joined, and sets of variables at unnamed elements.
pub fn one_name_and_one_first_role()
    ensures two { (axioms : List Axiom) (facts : List Fact) (s : Role) (x y : Element) (t u : Role)
        (v w : List Role) → x.word ≡ t ∷ v → y.word ≡ u ∷ w → Joins axioms facts s x y
        → (x.name ≡ y.name) × (t ≡ u) }
    ensures set { (axioms : List Axiom) (facts : List Fact) (q : Query) (m : ℕ → Element)
        (s : ℕ → Bool) → IsMatch axioms facts q m → IsConnected q s
        → ((v : ℕ) → s v ≡ true → (m v).word ≡ [] → ⊥)
        → (a : ℕ) × (t : Role)
        × ((v : ℕ) → s v ≡ true → ((m v).name ≡ a) × ((rest : List Role) × ((m v).word ≡ t ∷ rest)))
        × ((u : Term) → IsOutsideNeighbour q s u → (value_of m u).word ≡ []
        → value_of m u ≡ individual a) }
{}

/// A set folds into the tree of a role exactly where some members may stand at the role and the rest folds below it.
/// A connected set folds below a role exactly where it folds into the tree of one that may follow it.
/// Any other set folds below a role exactly where its parts do.
pub fn folds_fall_apart()
    ensures splits { (axioms : List Axiom) (q : Query) (s : ℕ → Bool) (t : Role)
        → ((words : ℕ → List Role) × IsTreeWitness axioms q s t words)
        ↔ ((m : ℕ → Bool) × SplitsAt axioms q s m t) }
    ensures connected { (axioms : List Axiom) (q : Query) (s : ℕ → Bool) (t : Role)
        → IsConnected q s → FoldsBelow axioms q s t
        ↔ ((u : Role) × MayFollow axioms t u
        × ((words : ℕ → List Role) × IsTreeWitness axioms q s u words)) }
    ensures parts { (axioms : List Axiom) (q : Query) (part s : ℕ → Bool) (t : Role)
        → IsClosedIn q part s → FoldsBelow axioms q s t
        ↔ (FoldsBelow axioms q part t × FoldsBelow axioms q (minus s part) t) }
    ensures none { (axioms : List Axiom) (q : Query) (s : ℕ → Bool) (t : Role)
        → ((v : ℕ) → s v ≡ false) → FoldsBelow axioms q s t }
{}

/// A connected set with outside neighbours folds into the tree of a role exactly where it does with members at the
/// role itself. One without them does exactly where a chain of roles leads from the role to one at which it has
/// members.
pub fn topmost_members()
    ensures with_neighbours { (axioms : List Axiom) (q : Query) (s : ℕ → Bool) (t : Role) (u : Term)
        → IsOutsideNeighbour q s u
        → ((words : ℕ → List Role) × IsTreeWitness axioms q s t words) ↔ SplitsAtSome axioms q s t }
    ensures without_neighbours { (axioms : List Axiom) (q : Query) (s : ℕ → Bool)
        → ((u : Term) → IsOutsideNeighbour q s u → ⊥) → IsConnected q s → (bound : ℕ)
        → ((v : ℕ) → s v ≡ true → v < bound) → (t : Role)
        → ((words : ℕ → List Role) × IsTreeWitness axioms q s t words)
        ↔ ((r : Role) × Chain (MayFollow axioms) t r × SplitsAtSome axioms q s r) }
{}
