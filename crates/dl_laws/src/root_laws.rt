//! Laws of roots and histories.
ghost use Rattle.std.specs.Prelude.{◌≡◌, ℕ, ◌+◌, ◌<◌, ◌≤◌, true, List, [], ◌++◌, Some, map};
ghost use Rattle.std.specs.List.{All, Contains, filter, flat_map, slice_index_or as get_or};
ghost use Rattle.dl_terms.specs.Order.{fact_cmp};
ghost use Rattle.dl_terms.specs.declared.axiom.Axiom.{Axiom};
ghost use Rattle.dl_terms.specs.declared.axiom.Fact.{Fact};
ghost use Rattle.dl_terms.specs.declared.axiom.Signature.{Signature};
ghost use Rattle.dl_row.specs.Lists.{Ascends, ordered};
ghost use Rattle.dl_row.specs.Rows.{Epoch, fact_of, rows_for, row_cmp, epoch_of, open_end};
ghost use Rattle.dl_row.specs.declared.row.Row.{Row};
ghost use Rattle.dl_edits.specs.Sets.{has, IsOnce};
ghost use Rattle.dl_edits.specs.Edits.{edited_facts, decided};
ghost use Rattle.dl_core.specs.History.{Load, Entry, version_of, commits_to, pin_of, axioms_at, facts_at, signature_at};
ghost use Rattle.dl_core.specs.Root.{Root, IsNumbered, ReadsAs, epochs, shard, stands_in, AreInShards, IsRowAt};
ghost use Rattle.dl_edits.specs.Signatures.{knows};
ghost use Rattle.dl_core.specs.Root.{RowsSay, StandsFor, IsLoad};
ghost use Rattle.dl_core.specs.Next.{Numbering, committed, committed_epoch, ended, new_facts, root_facts, IsNumbering};
ghost use Rattle.dl_core.specs.Next.{IsReady, GoesByRule, loaded, next, row_for, committed_rows};
ghost use Rattle.dl_core.specs.Loading.{IsLoadOf};
ghost use Rattle.dl_core.specs.Legal.{asked, IsLegal, IsLegalFrom, root_of, Reader, ReaderStandsFor};
ghost use Rattle.dl_core.specs.Steps.{longer};
ghost use Rattle.dl_event.specs.declared.event.Edit.{Edit};
ghost use Rattle.dl_event.specs.declared.event.Event.{Event};

/// Each root of a legal history stands for it, from the load on.
pub fn roots_stand_for_histories()
    ensures load { (numbering : Numbering) (l : Load) → IsNumbering numbering → IsLoad l
        → StandsFor l [] (loaded numbering l) }
    ensures next { (numbering : Numbering) (l : Load) (history : List Entry) (root : Root)
        → StandsFor l history root → (stream : ℕ) (e : Event) → IsNumbering numbering → IsReady root
        → StandsFor l (longer history stream e (next numbering root stream e).1)
        (next numbering root stream e).0 }
    ensures legal { (numbering : Numbering) (l : Load) (history : List Entry) → IsNumbering numbering
        → IsLoad l → IsLegal numbering l history → StandsFor l history (root_of numbering l history) }
{}

/// What a version has is the same in each longer history, and replies are determined by streams and events.
pub fn versions_stay()
    ensures versions { (history more : List Entry) (v : ℕ) → v ≤ version_of history
        → commits_to (history ++ more) v ≡ commits_to history v }
    ensures replies { (numbering : Numbering) (root : Root) (xs ys : List Entry)
        → IsLegalFrom numbering root xs → IsLegalFrom numbering root ys
        → map asked xs ≡ map asked ys → xs ≡ ys }
{}

/// While a stream keeps its pin, it reads what that version had when it was pinned.
pub fn pinned_versions_stay()
    ensures { (numbering : Numbering) (l : Load) (history more : List Entry) (stream v : ℕ)
        → IsNumbering numbering → IsLoad l → IsLegal numbering l (history ++ more)
        → pin_of history stream ≡ Some v → pin_of (history ++ more) stream ≡ Some v
        → ReadsAs (epochs (root_of numbering l (history ++ more))) (root_of numbering l (history ++ more)).rows v
        (axioms_at l history v) (signature_at l history v) (facts_at l history v) }
{}

/// After a commit each fact of the new version stands in exactly one row, and each earlier version has the rows that
/// it had.
pub fn commit_has_one_row_for_each_fact()
    ensures now { (es es' : List Epoch) (rows : List Row) (e : Epoch) (version : ℕ)
        (before after : List Fact) → All (IsRowAt es version) rows
        → All (λ r. fact_of es' r ≡ fact_of es r) rows → IsOnce fact_cmp after
        → All (λ g. fact_of es' (row_for e (version + 1) g) ≡ Some g) after
        → version + 1 < open_end → RowsSay es rows version before
        → RowsSay es' (committed_rows es rows e (version + 1) before after) (version + 1) after }
    ensures earlier { (es es' : List Epoch) (rows : List Row) (e : Epoch) (version : ℕ)
        (before after : List Fact) → All (λ r. fact_of es' r ≡ fact_of es r) rows
        → version + 1 < open_end → (v : ℕ) → v ≤ version → (f : Fact)
        → rows_for es' (committed_rows es rows e (version + 1) before after) v f
        ≡ rows_for es rows v f }
{}

/// The shard of a root after a commit is made of the same shard before it; and shards tell the rows.
pub fn shards_tell_the_rows()
    ensures committed { (numbering : Numbering) (root : Root) (edits : List Edit) (i : ℕ) →
        shard (committed numbering root edits) i
        ≡ ordered row_cmp
        (map (ended (epochs root) (edited_facts edits (root_facts root)) (root.version + 1)) (shard root i)
        ++ map (row_for (committed_epoch numbering root edits) (root.version + 1))
        (filter (λ f. stands_in root.shards i (row_for (committed_epoch numbering root edits) (root.version + 1) f))
        (new_facts (root_facts root) (edited_facts edits (root_facts root))))) }
    ensures together { (n i : ℕ) (shards : List (List Row)) → AreInShards n 0 shards
        → Ascends row_cmp (get_or shards i [])
        → filter (stands_in n i) (ordered row_cmp (flat_map (λ s. s) shards)) ≡ get_or shards i [] }
    ensures determine { (n : ℕ) (xs ys : List Row) → 1 ≤ n → Ascends row_cmp xs → Ascends row_cmp ys
        → ((i : ℕ) → i < n → filter (stands_in n i) xs ≡ filter (stands_in n i) ys) → xs ≡ ys }
{}

/// The last edit that names a fact decides whether it is there.
pub fn the_last_edit_decides()
    ensures { (edits : List Edit) (facts : List Fact) (f : Fact) →
        has fact_cmp (edited_facts edits facts) f ≡ decided edits f (has fact_cmp facts f) }
{}

/// A fact is there exactly where the row that one of the kept epochs gives it is open.
pub fn facts_have_open_rows()
    ensures row { (l : Load) (history : List Entry) (root : Root) → StandsFor l history root → (f : Fact)
        → has fact_cmp (root_facts root) f ≡ true
        → (e : Epoch) × (v : ℕ) × Contains (epochs root) e × (knows e.signature f ≡ true)
        × Contains root.rows (row_for e v f) }
    ensures there { (l : Load) (history : List Entry) (root : Root) → StandsFor l history root
        → (f : Fact) (e : Epoch) (v : ℕ) → epoch_of (epochs root) e.id ≡ Some e → IsNumbered e
        → knows e.signature f ≡ true → Contains root.rows (row_for e v f) → root.version < open_end
        → has fact_cmp (root_facts root) f ≡ true }
{}

/// There is a numbering by the rule, and each has the names of a signature once. So nothing that is said of the
/// numberings by the rule is said of none, and what the other laws say of numberings holds of these.
pub fn numberings_go_by_the_rule()
    ensures exists { (numbering : Numbering) × GoesByRule numbering }
    ensures numbers { (numbering : Numbering) → GoesByRule numbering → IsNumbering numbering }
{}

/// Lists of axioms and facts are one load, whatever their order.
pub fn lists_are_one_load()
    ensures exists { (axioms : List Axiom) (signature : Signature) (facts : List Fact) (shards : ℕ)
        → (l : Load) × IsLoadOf axioms signature facts shards l }
    ensures one { (axioms : List Axiom) (signature : Signature) (facts : List Fact) (shards : ℕ) (l m : Load)
        → IsLoadOf axioms signature facts shards l → IsLoadOf axioms signature facts shards m → l ≡ m }
{}

/// A reader with a pin reads what the pinned version has, by each list of entries that it stands for.
pub fn readers_read_their_pins()
    ensures { (numbering : Numbering) (l : Load) (seen : List Entry) (reader : Reader) (v : ℕ)
        → IsNumbering numbering → IsLoad l → ReaderStandsFor numbering l seen reader → reader.pin ≡ Some v
        → ReadsAs (epochs reader.root) reader.root.rows v (axioms_at l seen v) (signature_at l seen v)
        (facts_at l seen v) }
{}
