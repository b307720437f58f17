// Laws of the text of streams: what is printed is read as what it was.
ghost use Rattle.std.specs.Prelude.{◌≡◌, ℕ, ◌≤◌, ◌∷◌, [], List, All, length, slice_get};
ghost use Rattle.dl_names.specs.NameList.{Text, HasNoRepeats, max_names};
ghost use Rattle.dl_terms.specs.Occurring.{query_names};
ghost use Rattle.dl_terms.specs.Renamed.{renamed_query};
ghost use Rattle.dl_terms.specs.declared.axiom.Fact.{Fact};
ghost use Rattle.dl_terms.specs.declared.query.Query.{Query};
ghost use Rattle.dl_triples.specs.Reading as triples;
ghost use Rattle.dl_query.specs.Queries as queries;
ghost use Rattle.dl_stream.specs.ReadBack.{IsNamedFact};
ghost use Rattle.dl_text.specs.FactText.{fact_text};
ghost use Rattle.dl_text.specs.QueryText.{query_text};

/// A law: the text of a query that was read is read as this query, and names none that isn't there. `number` tells
/// where each of its names stands in the list of names that it is printed by, which may be another one than it was read
/// with. A query in memory has fewer than 256 variables.
pub fn queries_are_read_back()
    ensures { (bytes : List ℕ) (before names held : List Text) (query : Query) (number : ℕ → ℕ)
        → queries.IsValue bytes before query names → query.vars ≤ 256
        → HasNoRepeats held → length held ≤ max_names
        → All (λ n. slice_get held (number n) ≡ slice_get names n) (query_names query)
        → queries.IsValue (query_text held (renamed_query number query)) held (renamed_query number query) held }
{}

/// A law: the text of a fact is one triple, in one line, and is read as this fact; it names none that isn't there. The
/// names of the fact are those of a class or a role and of individuals.
pub fn facts_are_read_back()
    ensures { (held : List Text) (fact : Fact) → HasNoRepeats held → IsNamedFact held fact
        → triples.IsValue (fact_text held fact) held (fact ∷ []) 0 held }
{}
