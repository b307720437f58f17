//! Laws of the definitions: of auxiliary roles and names, of what is below what, of the canonical structure, and of
//! what is determined.
ghost use Rattle.std.specs.Prelude.{◌≡◌, ℕ, ◌↔◌, ◌⊎◌, List, map};
ghost use Rattle.std.specs.List.{Contains};
ghost use Rattle.std.specs.declared.option.Option.{Option};
ghost use Rattle.dl_terms.specs.Roles.{auxiliary_of};
ghost use Rattle.dl_terms.specs.NormalForm.{Row, axiom_rows};
ghost use Rattle.dl_terms.specs.Auxiliaries.{RoleHasNoAuxiliary, HasNoAuxiliary, RowHasNoAuxiliary, IsFilled};
ghost use Rattle.dl_terms.specs.Renamed.{renamed_axiom, renamed_fact, renamed_query};
ghost use Rattle.dl_terms.specs.Occurring.{axiom_names, fact_names, query_names};
ghost use Rattle.dl_terms.specs.Below.{RoleBelow, ConceptBelow};
ghost use Rattle.dl_terms.specs.Structure.{Element, IsElement, HoldsAt, Joins};
ghost use Rattle.dl_terms.specs.Answers.{AreCertain};
ghost use Rattle.dl_terms.specs.Broken.{IsFirstBroken};
ghost use Rattle.dl_terms.specs.Reply.{Reply, IsReply};
ghost use Rattle.dl_terms.specs.declared.role.Role.{Role};
ghost use Rattle.dl_terms.specs.declared.role.Basic.{Basic};
ghost use Rattle.dl_terms.specs.declared.role.Basic.TheVariants.{SomeOf};
ghost use Rattle.dl_terms.specs.declared.axiom.Axiom.{Axiom};
ghost use Rattle.dl_terms.specs.declared.axiom.Fact.{Fact};
ghost use Rattle.dl_terms.specs.declared.query.Query.{Query};

/// Role below and concept below are reflexive and transitive.
/// "Some r" is below "some s" where r is below s.
pub fn below_is_a_preorder()
    ensures role_itself { (axioms : List Axiom) (r : Role) → RoleBelow axioms r r }
    ensures role_chain { (axioms : List Axiom) (r s t : Role) → RoleBelow axioms r s
        → RoleBelow axioms s t → RoleBelow axioms r t }
    ensures concept_itself { (axioms : List Axiom) (b : Basic) → ConceptBelow axioms b b }
    ensures concept_chain { (axioms : List Axiom) (b c d : Basic) → ConceptBelow axioms b c
        → ConceptBelow axioms c d → ConceptBelow axioms b d }
    ensures some_of { (axioms : List Axiom) (r s : Role) → RoleBelow axioms r s
        → ConceptBelow axioms (SomeOf r) (SomeOf s) }
{}

/// "Some r" holds at an element of the canonical structure exactly where r joins it to an element.
pub fn some_of_is_a_neighbour()
    ensures { (axioms : List Axiom) (facts : List Fact) (r : Role) (x : Element)
        → IsElement axioms facts x → HoldsAt axioms facts (SomeOf r) x
        ↔ ((y : Element) × IsElement axioms facts y × Joins axioms facts r x y) }
{}

/// A query has at most one list of certain answers and one defined reply, and at most one axiom is the first broken
/// one.
pub fn answers_are_determined()
    ensures certain { (axioms : List Axiom) (facts : List Fact) (q : Query) (xs ys : List (List ℕ))
        → AreCertain axioms facts q xs → AreCertain axioms facts q ys → xs ≡ ys }
    ensures broken { (axioms : List Axiom) (facts : List Fact) (nothing : Option ℕ)
        (a b : Option Axiom) →
        IsFirstBroken axioms facts nothing a → IsFirstBroken axioms facts nothing b → a ≡ b }
    ensures reply { (axioms : List Axiom) (facts : List Fact) (nothing : Option ℕ)
        (q : Query) (limit : ℕ) (a b : Reply) → IsReply axioms facts nothing q limit a
        → IsReply axioms facts nothing q limit b → a ≡ b }
{}

/// Auxiliary roles come into the normal form for "some r in C" alone: each row of an axiom without auxiliary roles has
/// none, or is one of the rows that say that. There is one auxiliary role for each role that is none and each class,
/// and other names change nothing of all that.
pub fn auxiliaries_stand_for_some_in()
    ensures rows { (a : Axiom) (row : Row) → HasNoAuxiliary a
        → Contains (axiom_rows a) row → RowHasNoAuxiliary row ⊎ IsFilled row }
    ensures one_each { (r s : Role) (c d : ℕ) → RoleHasNoAuxiliary r → RoleHasNoAuxiliary s
        → auxiliary_of r c ≡ auxiliary_of s d → (r ≡ s) × (c ≡ d) }
    ensures renamed { (to : ℕ → ℕ) (a : Axiom)
        → HasNoAuxiliary a → HasNoAuxiliary (renamed_axiom to a) }
{}

/// The names of a renamed axiom, fact or query are its names, renamed.
pub fn names_are_renamed()
    ensures of_axiom { (to : ℕ → ℕ) (a : Axiom)
        → axiom_names (renamed_axiom to a) ≡ map to (axiom_names a) }
    ensures of_fact { (to : ℕ → ℕ) (f : Fact)
        → fact_names (renamed_fact to f) ≡ map to (fact_names f) }
    ensures of_query { (to : ℕ → ℕ) (q : Query)
        → query_names (renamed_query to q) ≡ map to (query_names q) }
{}
