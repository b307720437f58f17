// Rows of one shard that move to an epoch.
ghost use Rattle.std.specs.Prelude.{◌≡◌, ◌≢◌, ◌+◌, ℕ, min, map, Bool, Option, IfOk};
ghost use Rattle.std.specs.List.{All, Any};
ghost use Rattle.dl_terms.specs.declared.axiom.Fact.{Fact};
ghost use Rattle.dl_row.specs.Lists.{count};
ghost use Rattle.dl_row.specs.Rows.{fact_of};
ghost use Rattle.dl_epoch.specs.Covering.{kept, epoch_in};
ghost use Rattle.dl_epoch.specs.Frozen.{from_version};
ghost use Rattle.dl_migrate.specs.Lists.{first_that};
ghost use Rattle.dl_migrate.specs.Moving.{CanMove, IsSameRow, is_behind, migrated_rows, renumbered};
ghost use Rattle.dl_migrate.specs.Tallies.{carries, listed, IsTally};

use crate::number::moved_row;
use crate::pick::picked_behind;
use crate::tally::tally_of;
use dl_epoch::{Entry, Epoch, Epochs};
use dl_row::{PlainShard, Row};
use dl_terms::{List, NoMemory};
use std::alloc::Global;

/// A shard of which rows moved to an epoch, how many did, and of each epoch that one of them carried before how many
/// did.
#[derive(Drop)]
pub struct Moved {
    pub shard: PlainShard,
    pub moved: u64,
    pub per_epoch: List<(u32, u64)>,
}

/// Moves the first `n` rows that carry another epoch than this one, or all of these if there are fewer: each gets the
/// epoch's id and the number that its predicate has there. The epoch is one of `epochs`; each row of the shard carries
/// an epoch of `epochs` and has a number of it, and its predicate is in the signature of the epoch to which rows move.
/// It fails only for want of memory.
pub fn renumber(
    alloc: Global,
    shard: &PlainShard,
    n: u64,
    epochs: &Epochs,
    to: &Epoch,
) -> Result<Moved, NoMemory>
    requires to { Any (λ e. e.epoch ≡ to.now) epochs.now }
    requires rows { All (CanMove (map epoch_in epochs.now) to.now.signature) shard.now }
    ensures rows { IfOk result (λ m.
        (first : ℕ) → m.shard ≡ migrated_rows n (map epoch_in epochs.now) (from_version first to.now) shard.now) }
    ensures moved { IfOk result (λ m. m.moved ≡ min n (count (is_behind to.now.id) shard.now)) }

    // A row that moves stands for the same fact, and is seen at the same versions. So the facts of the rows stay, with
    // the versions at which they are seen.
    ensures same { IfOk result (λ m. (first : ℕ) →
        All (λ r. IsSameRow (map epoch_in epochs.now) r
        (renumbered (map epoch_in epochs.now) (from_version first to.now) r)) shard.now) }
    ensures facts { IfOk result (λ m. (says : Option Fact → ℕ → ℕ → Bool) →
        count (λ r. says (fact_of (map epoch_in epochs.now) r) r.first r.last) m.shard
        ≡ count (λ r. says (fact_of (map epoch_in epochs.now) r) r.first r.last) shard.now) }

    // By epoch, what moved, and so what carries each one then.
    ensures per_epoch { IfOk result (λ m. IsTally (first_that n (is_behind to.now.id) shard.now) m.per_epoch) }
    ensures others { IfOk result (λ m. (id : ℕ) → id ≢ to.now.id →
        count (carries id) m.shard + listed id m.per_epoch ≡ count (carries id) shard.now) }
    ensures this { IfOk result (λ m.
        count (carries to.now.id) m.shard ≡ count (carries to.now.id) shard.now + m.moved) }
{
    let picked = picked_behind(alloc, shard, n, to.id())?;
    let per_epoch = tally_of(alloc, picked.rows.as_slice())?;
    let rows = moved_rows(alloc, picked.rows.as_slice(), epochs.entries(), to)?;
    let shard = shard.with(alloc, picked.places.as_slice(), rows.as_slice())?;
    Ok(Moved {
        shard,
        moved: picked.places.len() as u64,
        per_epoch,
    })
}

/// The rows of the same facts in an epoch.
fn moved_rows(
    alloc: Global,
    rows: &[Row],
    entries: &[Entry],
    to: &Epoch,
) -> Result<List<Row>, NoMemory>
    requires { All (CanMove (map epoch_in (map kept entries.now)) to.now.signature) rows.now }
    ensures { IfOk result (λ moved. (first : ℕ) →
        moved ≡ map (renumbered (map epoch_in (map kept entries.now)) (from_version first to.now)) rows.now) }
{
    let mut moved = List::new(alloc);
    for row in rows {
        moved.push(moved_row(row, entries, to))?;
    }
    Ok(moved)
}
