// Laws of the grammar and of reading.
ghost use Rattle.std.specs.Prelude.{◌≡◌, ◌⊎◌, ℕ, ◌≤◌, ◌↔◌, true, List, ◌∷◌, [], All, Contains, length, slice_get};
ghost use Rattle.dl_names.specs.NameList.{Text, HasNoRepeats, max_names};
ghost use Rattle.dl_terms.specs.declared.axiom.Axiom.{Axiom};
ghost use Rattle.dl_terms.specs.Occurring.{axiom_names};
ghost use Rattle.dl_terms.specs.Renamed.{renamed_axiom};
ghost use Rattle.dl_owl.specs.declared.document.Document.{Document};
ghost use Rattle.dl_text.specs.AxiomText.{axiom_text};
ghost use Rattle.dl_owl.specs.Items.{empty_document};
ghost use Rattle.dl_owl.specs.Symbols.{Placed, symbols_of, AreTokens};
ghost use Rattle.dl_owl.specs.Causes.{Cause};
ghost use Rattle.dl_owl.specs.Expected.{Expected, prologue, lone_axiom};
ghost use Rattle.dl_owl.specs.Ontologies.{IsOntology, IsLoneAxiom};
ghost use Rattle.dl_owl.specs.Reading.{Met, fails, unfinished, gives, outcome, is_shallow, start, FailsAt, ReadsValue, ReadsFault};

/// A law: reading gives a value exactly where the plain grammar has it, at most 64 parentheses are open anywhere and
/// the names fit.
pub fn values_are_those_of_the_grammar()
    ensures ontology { (names after : List Text) (tokens : List Placed) (document : Document) → length names ≤ max_names
        → (outcome prologue (start names) tokens ≡ gives document after)
        ↔ (IsOntology names (symbols_of tokens) document after
        × ((is_shallow 0 (symbols_of tokens) ≡ true) × (length after ≤ max_names))) }
    ensures axiom { (names after : List Text) (tokens : List Placed) (document : Document) → length names ≤ max_names
        → (outcome lone_axiom (start names) tokens ≡ gives document after)
        ↔ (IsLoneAxiom names (symbols_of tokens) document after
        × ((is_shallow 0 (symbols_of tokens) ≡ true) × (length after ≤ max_names))) }
{}

/// A law: a fault is told by the tokens up to the faulty one alone: before it there is none, and whatever follows it,
/// the fault is the same. So no text that goes on from there has a value.
pub fn faults_come_at_their_tokens()
    ensures { (e : Expected) (met : Met) (tokens : List Placed) (cause : Cause) (at : ℕ)
        → outcome e met tokens ≡ fails cause at → FailsAt e met tokens cause at }
{}

/// A law: all tokens of a text give a value or a fault, and bytes give one result at most.
pub fn reading_gives_one_result()
    ensures always { (bytes : List ℕ) (tokens : List Placed) (e : Expected) (met : Met)
        → AreTokens bytes true 0 tokens → ¬ (outcome e met tokens ≡ unfinished) }
    ensures one_value { (bytes : List ℕ) (e : Expected) (names after later : List Text) (document other : Document)
        → ReadsValue bytes e names document after → ReadsValue bytes e names other later
        → (document ≡ other) × (after ≡ later) }
    ensures one_fault { (bytes : List ℕ) (e : Expected) (names : List Text) (cause other : Cause) (at place : ℕ)
        → ReadsFault bytes e names cause at → ReadsFault bytes e names other place
        → (cause ≡ other) × (at ≡ place) }
    ensures value_or_fault { (bytes : List ℕ) (e : Expected) (names after : List Text) (document : Document)
        (cause : Cause) (at : ℕ) → ReadsValue bytes e names document after → ¬ ReadsFault bytes e names cause at }
{}

/// A law: the text of an axiom that was read, in an ontology or alone, is read as this axiom and nothing else, and
/// names none that isn't there. `number` tells where each of its names stands in the list of names that it is printed
/// by, which may be another one than it was read with.
pub fn axioms_are_read_back()
    ensures { (bytes : List ℕ) (e : Expected) (before names held : List Text) (document : Document) (stated : Axiom)
        (number : ℕ → ℕ) → (e ≡ prologue) ⊎ (e ≡ lone_axiom)
        → ReadsValue bytes e before document names → Contains document.axioms stated
        → HasNoRepeats held → length held ≤ max_names
        → All (λ n. slice_get held (number n) ≡ slice_get names n) (axiom_names stated)
        → ReadsValue (axiom_text held (renamed_axiom number stated)) lone_axiom held
        (record empty_document { axioms = renamed_axiom number stated ∷ [] }) held }
{}
