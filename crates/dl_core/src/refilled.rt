// The root with other rows in one shard.
ghost use Rattle.std.specs.Prelude.{◌≡◌, ◌+◌, ◌-◌, ◌<◌, ◌≤◌, ◌==◌, List as Items, All, cond, map, IfOk};
ghost use Rattle.std.specs.Arc.{arc_value};
ghost use Rattle.dl_row.specs.Shards.{max_rows};
ghost use Rattle.dl_row.specs.declared.row.Row.{Row as AnyRow};
ghost use Rattle.dl_epoch.specs.Covering.{kept};
ghost use Rattle.dl_migrate.specs.Tallies.{listed};
ghost use Rattle.dl_core.specs.Root.{shard};
ghost use Rattle.dl_core.specs.Next.{with_rows};
ghost use Rattle.dl_core.specs.Maintaining.{recounted, HasThose, IsRefill, AreShardsWith};

use crate::copies::{copied_pins, counting};
use crate::{Book, Root};
use dl_epoch::{Entry, Epochs};
use dl_row::PlainShard;
use dl_terms::{List, NoMemory};
use std::alloc::Global;
use std::sync::Arc;

/// The root with another shard in the place of one. By epoch some rows went, others came to the current one, and some
/// were dropped. It fails only for want of memory.
pub(crate) fn refilled(
    alloc: Global,
    root: &Root,
    i: u32,
    shard: PlainShard,
    gone: &[(u32, u64)],
    come: u64,
    dropped: u64,
) -> Result<Root, NoMemory>
    requires { (rows : Items AnyRow) × IsRefill root.now i rows shard gone.now come dropped }
    ensures { (rows : Items AnyRow) → IsRefill root.now i rows shard gone.now come dropped
        → IfOk result (λ after. after ≡ with_rows root.now rows) }
{
    let book = root.book();
    let id = root.current().epoch.id();
    let entries = recounted(alloc, book.epochs.entries(), gone, id, come)?;
    let shards = shards_with(alloc, root, i, shard)?;
    let book = Book {
        version: book.version,
        epochs: Epochs::of(entries),
        pins: copied_pins(alloc, book.pins.as_slice())?,
        rows: book.rows - dropped,
    };
    Root::of(alloc, book, shards)
}

/// The entries, of which each counts fewer rows by those that went, and one more by those that came.
fn recounted(
    alloc: Global,
    entries: &[Entry],
    gone: &[(u32, u64)],
    id: u32,
    come: u64,
) -> Result<List<Entry>, NoMemory>
    requires few { come ≤ max_rows }
    requires those { All (HasThose gone.now) (map kept entries.now) }
    ensures { IfOk result (λ counted. map kept counted ≡ map (recounted gone.now id come) (map kept entries.now)) }
{
    let mut counted = List::new(alloc);
    for entry in entries {
        counted.push(counting(entry, rows_then(entry, gone, id, come))?)?;
    }
    Ok(counted)
}

/// How many rows an entry counts when some went, and others came to an epoch.
fn rows_then(entry: &Entry, gone: &[(u32, u64)], id: u32, come: u64) -> u64
    requires few { come ≤ max_rows }
    requires those { HasThose gone.now (kept entry.now) }
    ensures { result ≡ (recounted gone.now id come (kept entry.now)).rows }
{
    let own = entry.epoch.id();
    let left = entry.rows - listed(gone, own);
    if own == id { left + come } else { left }
}

/// How many rows are listed for an epoch.
fn listed(tally: &[(u32, u64)], id: u32) -> u64
    requires { listed id tally.now ≤ max_rows }
    ensures { result ≡ listed id tally.now }
{
    let mut rows = 0;
    for entry in tally {
        if entry.0 == id {
            rows += entry.1;
        }
    }
    rows
}

/// The shards of a root, with another one in the place of one.
fn shards_with(
    alloc: Global,
    root: &Root,
    i: u32,
    shard: PlainShard,
) -> Result<List<Arc<PlainShard, Global>>, NoMemory>
    ensures { IfOk result (λ shards. AreShardsWith root.now i shard root.now.shards (map arc_value shards)) }
{
    let shared = match Arc::new(alloc, shard) {
        Ok(shared) => shared,
        Err(_) => return Err(NoMemory),
    };
    let mut shards = List::new(alloc);
    for j in 0..root.shards() {
        shards.push(one_shard(root, j, i, &shared)?)?;
    }
    Ok(shards)
}

/// A shard, shared, or another one in its place.
fn one_shard(
    root: &Root,
    j: u32,
    i: u32,
    other: &Arc<PlainShard, Global>,
) -> Result<Arc<PlainShard, Global>, NoMemory>
    requires { j < root.now.shards }
    ensures { IfOk result (λ s. arc_value s ≡ cond (j == i) (arc_value other.now) (shard root.now j)) }
{
    if j == i {
        Ok(Arc::try_clone(other)?)
    } else {
        root.shared_shard(j)
    }
}
