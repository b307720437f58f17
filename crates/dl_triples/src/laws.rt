// Laws of the definitions.
ghost use Rattle.std.specs.Prelude.{◌≡◌, ℕ, ◌∷◌, ◌++◌, List, [], Option};
ghost use Rattle.std.specs.Str.{IsUtf8};
ghost use Rattle.dl_names.specs.NameList.{Text};
ghost use Rattle.dl_names.specs.Iris.{IsIri};
ghost use Rattle.dl_terms.specs.declared.axiom.Fact.{Fact};
ghost use Rattle.dl_triples.specs.declared.fault.TripleFault.{TripleFault};
ghost use Rattle.dl_triples.specs.Lines.{AreLines};
ghost use Rattle.dl_triples.specs.Terms.{IsIriref, IsNothing, IsTriple, HasNode};
ghost use Rattle.dl_triples.specs.Reading.{IsValue, IsFirstFault};

/// A law: bytes are cut into lines in one way.
pub fn lines_are_determined()
    ensures some { (bytes : List ℕ) → (lines : List (List ℕ)) × AreLines bytes lines }
    ensures one { (bytes : List ℕ) (lines other : List (List ℕ)) →
        AreLines bytes lines → AreLines bytes other → lines ≡ other }
{}

/// A law: an IRIREF spells one IRI, which is one in the sense of names, and each such IRI is spelled by itself.
/// Others may spell it, too.
pub fn irirefs_spell_one_iri()
    ensures one { (part : List ℕ) (iri other : Text) →
        IsIriref part iri → IsIriref part other → iri ≡ other }
    ensures iri { (part : List ℕ) (iri : Text) → IsIriref part iri → IsIri iri }
    ensures plain { (iri : Text) → IsIri iri → IsIriref (60 ∷ iri ++ 62 ∷ []) iri }
{}

/// A law: a line is at most one of a triple, nothing but a comment, and one where a blank node begins; a triple
/// has one list of terms. A triple and a comment are UTF-8.
pub fn lines_have_one_form()
    ensures terms { (line : List ℕ) (s p s' p' : Text) (o o' : Option Text) →
        IsTriple line s p o → IsTriple line s' p' o' → (s ≡ s') × (p ≡ p') × (o ≡ o') }
    ensures no_comment { (line : List ℕ) (s p : Text) (o : Option Text) →
        IsTriple line s p o → IsNothing line → ⊥ }
    ensures no_node { (line : List ℕ) (s p : Text) (o : Option Text) →
        IsTriple line s p o → HasNode line → ⊥ }
    ensures no_node_in_comment { (line : List ℕ) → HasNode line → IsNothing line → ⊥ }
    ensures triple_text { (line : List ℕ) (s p : Text) (o : Option Text) →
        IsTriple line s p o → IsUtf8 line }
    ensures comment_text { (line : List ℕ) → IsNothing line → IsUtf8 line }
{}

/// A law: bytes behind some names have one value or one first fault, never both, and not neither.
pub fn texts_have_one_value_or_one_first_fault()
    ensures one_value { (bytes : List ℕ) (names : List Text)
        (facts facts' : List Fact) (skipped skipped' : ℕ) (after after' : List Text) →
        IsValue bytes names facts skipped after → IsValue bytes names facts' skipped' after' →
        (facts ≡ facts') × (skipped ≡ skipped') × (after ≡ after') }
    ensures one_fault { (bytes : List ℕ) (names : List Text) (fault other : TripleFault) →
        IsFirstFault bytes names fault → IsFirstFault bytes names other → fault ≡ other }
    ensures not_both { (bytes : List ℕ) (names : List Text)
        (facts : List Fact) (skipped : ℕ) (after : List Text) (fault : TripleFault) →
        IsValue bytes names facts skipped after → IsFirstFault bytes names fault → ⊥ }
    ensures not_neither { (bytes : List ℕ) (names : List Text) →
        ((facts : List Fact) (skipped : ℕ) (after : List Text) →
        IsValue bytes names facts skipped after → ⊥) →
        ((fault : TripleFault) → IsFirstFault bytes names fault → ⊥) → ⊥ }
{}
