//! Laws of migrating, sweeping and reclaiming.
ghost use Rattle.std.specs.Prelude.{◌≡◌, ◌≢◌, ℕ, ◌++◌, List, map, filter};
ghost use Rattle.std.specs.List.{Contains};
ghost use Rattle.dl_row.specs.Rows.{Epoch};
ghost use Rattle.dl_migrate.specs.Lists.{drop_first};
ghost use Rattle.dl_migrate.specs.Moving.{migrated_rows};
ghost use Rattle.dl_migrate.specs.Sweeping.{is_over};
ghost use Rattle.dl_core.specs.History.{Load, Entry};
ghost use Rattle.dl_core.specs.Root.{Root, IsInUse, IsLoad, StandsFor, epochs, shard};
ghost use Rattle.dl_core.specs.Next.{Numbering, IsNumbering, migrated, behind, horizon, swept, is_dead_in, reclaimed};
ghost use Rattle.dl_core.specs.Legal.{IsLegal, root_from, root_of};
ghost use Rattle.dl_laws.specs.Scratch.{NoneOpens, bare_rows, scratch};
ghost use Rattle.dl_core.specs.Steps.{longer};
ghost use Rattle.dl_event.specs.declared.event.Event.TheVariants as event;
ghost use Rattle.dl_event.specs.declared.reply.Reply.TheVariants as reply;

/// Migrating, sweeping and reclaiming keep what a root stands for, so each live version reads what it read.
pub fn maintenance_keeps()
    ensures migrate { (l : Load) (history : List Entry) (root : Root) (i n : ℕ)
        → StandsFor l history root → StandsFor l history (migrated root i n) }
    ensures sweep { (l : Load) (history : List Entry) (root : Root) (i n : ℕ)
        → StandsFor l history root → StandsFor l history (swept root i n) }
    ensures reclaim { (l : Load) (history : List Entry) (root : Root)
        → StandsFor l history root → StandsFor l history (reclaimed root) }
{}

/// After a reclaim exactly the epochs in use remain.
pub fn epochs_in_use_remain()
    ensures each { (l : Load) (history : List Entry) (root : Root) → StandsFor l history root → (e : Epoch)
        → Contains (epochs (reclaimed root)) e → IsInUse (reclaimed root) e }
    ensures all { (l : Load) (history : List Entry) (root : Root) → StandsFor l history root → (e : Epoch)
        → Contains (epochs root) e → IsInUse root e → Contains (epochs (reclaimed root)) e }
    // The ids that are answered are exactly those of the others.
    ensures answered { (l : Load) (history : List Entry) (root : Root) → StandsFor l history root → (e : Epoch)
        → Contains (epochs root) e → Contains (map (λ d. d.id) (filter (is_dead_in root) root.older)) e.id
        → IsInUse root e → ⊥ }
    ensures unused { (l : Load) (history : List Entry) (root : Root) → StandsFor l history root → (e : Epoch)
        → Contains (epochs root) e → (IsInUse root e → ⊥)
        → Contains (map (λ d. d.id) (filter (is_dead_in root) root.older)) e.id }
{}

/// Where no row carries an older epoch, the visible rows are those of a load from scratch; and while no epoch opens, no
/// row falls behind.
pub fn migrated_rows_are_those_of_scratch()
    ensures scratch { (numbering : Numbering) (l : Load) (history : List Entry) → IsNumbering numbering
        → IsLoad l → IsLegal numbering l history → behind (root_of numbering l history) ≡ 0
        → bare_rows (root_of numbering l history) ≡ scratch numbering l history }
    ensures stays { (numbering : Numbering) (root : Root) → behind root ≡ 0 → (more : List Entry)
        → NoneOpens numbering root more → behind (root_from numbering root more) ≡ 0 }
    // So it is once a migration has left no row behind, while no epoch opens.
    ensures left { (numbering : Numbering) (l : Load) (history more : List Entry) (stream i n moved : ℕ)
        → IsNumbering numbering → IsLoad l
        → IsLegal numbering l (longer history stream (event.Migrate i n) (reply.Migrated moved 0) ++ more)
        → NoneOpens numbering
        (root_of numbering l (longer history stream (event.Migrate i n) (reply.Migrated moved 0))) more
        → bare_rows (root_of numbering l (longer history stream (event.Migrate i n) (reply.Migrated moved 0) ++ more))
        ≡ scratch numbering l (longer history stream (event.Migrate i n) (reply.Migrated moved 0) ++ more) }
{}

/// Maintenance works on one shard, and leaves the others.
pub fn maintenance_works_by_shards()
    ensures migrated { (root : Root) (i n : ℕ)
        → shard (migrated root i n) i ≡ migrated_rows n (epochs root) root.current (shard root i) }
    ensures migrated_others { (l : Load) (history : List Entry) (root : Root) → StandsFor l history root
        → (i n j : ℕ) → j ≢ i → shard (migrated root i n) j ≡ shard root j }
    ensures swept { (root : Root) (i n : ℕ)
        → shard (swept root i n) i ≡ drop_first n (is_over (horizon root)) (shard root i) }
    ensures swept_others { (root : Root) (i n j : ℕ) → j ≢ i → shard (swept root i n) j ≡ shard root j }
{}
