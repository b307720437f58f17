//! What the definitions give on small loads.
ghost use Rattle.std.specs.Prelude.{◌≡◌, List, [], ◌∷◌};
ghost use Rattle.dl_core.specs.History.{Load, Entry};
ghost use Rattle.dl_core.specs.Root.{StandsFor};
ghost use Rattle.dl_core.specs.Next.{Numbering, IsNumbering, loaded};
ghost use Rattle.dl_laws.specs.Examples.{replies, a_is_an_a, only_a_fact, pin_again, remove_and_add};
ghost use Rattle.dl_laws.specs.Examples.{refused_events, class_a, row_of_a, twice_a};
ghost use Rattle.dl_laws.specs.Examples.{migrate_and_reclaim, pin_and_sweep, no_such_shard};
ghost use Rattle.dl_event.specs.declared.reply.Reply.TheVariants.{Committed, Pinned, Unpinned, Migrated, Swept, Reclaimed};
ghost use Rattle.dl_event.specs.declared.reply.Reply.TheVariants.{Looked, Refused};
ghost use Rattle.dl_event.specs.declared.reply.Refusal.TheVariants.{NoPin, PinOpen, NoShard};

/// The replies to a stream's events, whichever numbers the names have.
pub fn reply_examples()
    // A stream pins, changes the ontology, and pins anew.
    ensures pin_again { (numbering : Numbering) → IsNumbering numbering
        → replies numbering (loaded numbering a_is_an_a) pin_again ≡
        Pinned 1 ∷ Committed 2 2 ∷ Unpinned 1 ∷ Pinned 2 ∷ [] }
    // A fact removed and added in one commit keeps its row; in two commits it gets another.
    ensures remove_and_add { (numbering : Numbering) → IsNumbering numbering
        → replies numbering (loaded numbering only_a_fact) remove_and_add ≡
        Committed 2 1
        ∷ Looked (record {
          version = 2;
          epoch = 1;
          epochs = 1;
          kept = 1;
          visible = 1;
          behind = 0;
          classes = class_a ∷ [];
          roles = [];
          rows = row_of_a 1 ∷ [];
        })
        ∷ Committed 3 1 ∷ Committed 4 1
        ∷ Looked (record {
          version = 4;
          epoch = 1;
          epochs = 1;
          kept = 2;
          visible = 1;
          behind = 0;
          classes = class_a ∷ [];
          roles = [];
          rows = row_of_a 4 ∷ [];
        })
        ∷ [] }
    // A stream without a pin, and with one.
    ensures refused { (numbering : Numbering) → IsNumbering numbering
        → replies numbering (loaded numbering only_a_fact) refused_events ≡
        Refused NoPin ∷ Pinned 1 ∷ Refused (PinOpen 1) ∷ [] }
{}

/// The replies to maintenance, whichever numbers the names have.
pub fn maintenance_examples()
    // The pinned version needs the first epoch, although no row carries it any more.
    ensures reclaim { (numbering : Numbering) → IsNumbering numbering
        → replies numbering (loaded numbering a_is_an_a) migrate_and_reclaim ≡
        Pinned 1 ∷ Committed 2 2 ∷ Migrated 1 0 ∷ Reclaimed [] ∷ Unpinned 1 ∷ Reclaimed (1 ∷ []) ∷ Reclaimed [] ∷ [] }
    // The horizon is the pinned version, and then the current one.
    ensures sweep { (numbering : Numbering) → IsNumbering numbering
        → replies numbering (loaded numbering only_a_fact) pin_and_sweep ≡
        Pinned 1 ∷ Committed 2 1 ∷ Swept 0 0 ∷ Unpinned 1 ∷ Swept 1 0 ∷ [] }
    ensures no_shard { (numbering : Numbering) → IsNumbering numbering
        → replies numbering (loaded numbering only_a_fact) no_such_shard ≡
        Refused (NoShard 2) ∷ Refused (NoShard 9) ∷ [] }
{}

/// A root that has a row twice stands for no history.
pub fn root_examples()
    ensures { (l : Load) (history : List Entry) → StandsFor l history twice_a → ⊥ }
{}
