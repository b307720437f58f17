//! Laws of query texts, as functions that do nothing.
ghost use Rattle.std.specs.Prelude.{◌≡◌, ◌≤◌, ◌<◌, ◌⊎◌, ℕ, List, length};
ghost use Rattle.dl_names.specs.NameList.{Text, max_names};
ghost use Rattle.dl_terms.specs.declared.query.Query.{Query};
ghost use Rattle.dl_query.specs.declared.fault.QueryFault.{QueryFault};
ghost use Rattle.dl_query.specs.declared.fault.QueryFault.TheVariants.{TooManyNames};
ghost use Rattle.dl_query.specs.Grammar.{Met, query_of};
ghost use Rattle.dl_query.specs.Steps.{Cause, fault_of};
ghost use Rattle.dl_query.specs.Reading.{IsSameUpTo};
ghost use Rattle.dl_query.specs.Queries.{IsText, IsValue, QueryHasFault, HasFault};

/// A text has one value or one fault.
pub fn results_are_determined()
    ensures one_value { (bytes : List ℕ) (names : List Text) (q q' : Query) (after after' : List Text) →
        IsValue bytes names q after → IsValue bytes names q' after' → (q ≡ q') × (after ≡ after') }
    ensures one_fault { (bytes : List ℕ) (names : List Text) (f f' : QueryFault) (after after' : List Text) →
        HasFault bytes names f after → HasFault bytes names f' after' → (f ≡ f') × (after ≡ after') }
    ensures not_both { (bytes : List ℕ) (names : List Text) (q : Query) (f : QueryFault) (after after' : List Text) →
        IsValue bytes names q after → HasFault bytes names f after' → ⊥ }
    ensures some { (bytes : List ℕ) (names : List Text) → length names ≤ max_names →
        ((q : Query) × (after : List Text) × IsValue bytes names q after)
        ⊎ ((f : QueryFault) × (after : List Text) × HasFault bytes names f after) }
{}

/// A text has a value exactly where it is of the grammar, its names get places, and neither `Unsafe` nor `TooLarge`
/// comes.
pub fn values_are_of_the_grammar()
    ensures value { (bytes : List ℕ) (names : List Text) (m : Met) → IsText bytes names m →
        ((at : ℕ) (after : List Text) → HasFault bytes names (TooManyNames at) after → ⊥) →
        ((f : QueryFault) → QueryHasFault (query_of m) f → ⊥) →
        length names ≤ max_names → IsValue bytes names (query_of m) m.names }
    ensures of_grammar { (bytes : List ℕ) (names : List Text) (q : Query) (after : List Text) →
        IsValue bytes names q after →
        (m : Met) × IsText bytes names m × (q ≡ query_of m) × (after ≡ m.names)
        × ((f : QueryFault) → QueryHasFault q f → ⊥) }
{}

/// A fault at a byte depends on the bytes up to the end of the token there alone.
pub fn faults_depend_on_what_is_read()
    ensures { (bytes other : List ℕ) (names : List Text) (cause : Cause) (at : ℕ) (after : List Text) →
        HasFault bytes names (fault_of cause at) after → IsSameUpTo bytes at other →
        HasFault other names (fault_of cause at) after }
{}
