//! Laws of readers: what a pin's version has, and where it is read.
ghost use Rattle.std.specs.Prelude.{◌≡◌, ◌↔◌, ℕ, ◌≤◌, ◌%◌, List, Some, map};
ghost use Rattle.std.specs.List.{All, Any, Contains, filter, filter_map};
ghost use Rattle.dl_terms.specs.declared.axiom.Fact.{Fact};
ghost use Rattle.dl_normal.specs.Weight.{total_weight};
ghost use Rattle.dl_row.specs.Rows.{Epoch, fact_of, visible, covering};
ghost use Rattle.dl_epoch.specs.Covering.{epoch_in};
ghost use Rattle.dl_epoch.specs.Known.{ArePredicatesFew, max_weight};
ghost use Rattle.dl_core.specs.Changes.{first_end};
ghost use Rattle.dl_core.specs.Held.{IsBookOf, IsSound};
ghost use Rattle.dl_core.specs.History.{Load, Entry, version_of, axioms_at, facts_at, signature_at};
ghost use Rattle.dl_core.specs.Legal.{Begins, Reader, ReaderStandsFor};
ghost use Rattle.dl_core.specs.Loading.{IsFactIn};
ghost use Rattle.dl_core.specs.Next.{Numbering, IsNumbering};
ghost use Rattle.dl_core.specs.Root.{Root, IsLoad, epochs, shard, pin_in};
ghost use Rattle.dl_edits.specs.Signatures.{AreKnown};
ghost use Rattle.dl_core.specs.declared.book.Book.{Book};

/// What a version has is the same by each longer list of entries.
pub fn versions_have_the_same()
    ensures axioms { (l : Load) (seen longer : List Entry) (v : ℕ) → Begins seen longer → v ≤ version_of seen
        → axioms_at l longer v ≡ axioms_at l seen v }
    ensures facts { (l : Load) (seen longer : List Entry) (v : ℕ) → Begins seen longer → v ≤ version_of seen
        → facts_at l longer v ≡ facts_at l seen v }
    ensures signature { (l : Load) (seen longer : List Entry) (v : ℕ) → Begins seen longer → v ≤ version_of seen
        → signature_at l longer v ≡ signature_at l seen v }
{}

/// A reader's pin is one of the versions that it has seen.
pub fn pins_are_versions()
    ensures { (numbering : Numbering) (l : Load) (seen : List Entry) (reader : Reader) (v : ℕ)
        → IsNumbering numbering → IsLoad l → ReaderStandsFor numbering l seen reader → reader.pin ≡ Some v
        → (1 ≤ v) × (v ≤ version_of seen) }
{}

/// The rows of a shard that are visible at a reader's pin stand for exactly those facts of that version whose first end
/// belongs into the shard.
pub fn shards_say_their_facts()
    ensures { (numbering : Numbering) (l : Load) (seen : List Entry) (reader : Reader) (v i : ℕ)
        → IsNumbering numbering → IsLoad l → ReaderStandsFor numbering l seen reader → reader.pin ≡ Some v
        → (f : Fact)
        → Contains (filter_map (fact_of (epochs reader.root)) (filter (visible v) (shard reader.root i))) f
        ↔ (Contains (facts_at l seen v) f × (first_end f % reader.root.shards ≡ i)) }
{}

/// A book has an entry that covers each pin of its root, and that entry has the axioms and the signature of the pinned
/// version.
pub fn pins_have_entries()
    ensures covered { (root : Root) (book : Book) (stream v : ℕ) → IsSound root → IsBookOf root book
        → pin_in root.pins stream ≡ Some v → Any (λ e. e.first ≤ v) book.epochs }
    ensures reads { (numbering : Numbering) (l : Load) (seen : List Entry) (reader : Reader) (v : ℕ)
        → IsNumbering numbering → IsLoad l → ReaderStandsFor numbering l seen reader → reader.pin ≡ Some v
        → (book : Book) → IsBookOf reader.root book
        → (e : Epoch) → covering (map epoch_in book.epochs) v ≡ Some e
        → (e.axioms ≡ axioms_at l seen v) × (e.signature ≡ signature_at l seen v) }
{}

/// The entries of a book are within the limits of an epoch. What else an epoch needs, `IsBookOf` says of each.
pub fn entries_are_within_limits()
    ensures weight { (root : Root) (book : Book) → IsSound root → IsBookOf root book
        → All (λ e. total_weight e.epoch.axioms ≤ max_weight) book.epochs }
    ensures few { (root : Root) (book : Book) → IsSound root → IsBookOf root book
        → All (λ e. ArePredicatesFew e.epoch.signature e.epoch.axioms) book.epochs }
{}

/// The signature of a version has the predicates of its facts.
pub fn signatures_know_the_facts()
    ensures known { (l : Load) (history : List Entry) (v : ℕ) → IsLoad l
        → AreKnown (signature_at l history v) (facts_at l history v) }
    ensures each { (l : Load) (history : List Entry) (v : ℕ) → IsLoad l
        → All (IsFactIn (signature_at l history v)) (facts_at l history v) }
{}
