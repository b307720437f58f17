// Migrate and sweep: rows of a shard that move to the current epoch, and rows that no live version sees.
ghost use Rattle.std.specs.Prelude.{◌≡◌, ℕ, map, IfOk};
ghost use Rattle.dl_core.specs.Next.{Numbering, next, least};
ghost use Rattle.dl_event.specs.declared.event.Event.TheVariants as event;

use crate::refilled::refilled;
use crate::{Pin, Refusal, Reply, Root};
use dl_epoch::Epoch;
use dl_migrate::{Moved, SweptShard, renumber, swept as swept_shard};
use dl_terms::NoMemory;
use std::alloc::Global;

/// The root after the first `n` rows of a shard that carry another epoch moved to the current one, or all of these if
/// there are fewer; and the reply. Where there is no such shard, the root is the same. It fails only for want of
/// memory.
pub(crate) fn migrated(
    alloc: Global,
    root: &Root,
    i: u32,
    n: u64,
) -> Result<(Root, Reply), NoMemory>
    ensures { (numbering : Numbering) (stream : ℕ)
        → IfOk result (λ after. after ≡ next numbering root.now stream (event.Migrate i n)) }
{
    if i >= root.shards() {
        return Ok((root.copy()?, Reply::Refused(Refusal::NoShard { shard: i })));
    }
    let book = root.book();
    let current = root.current();
    let epoch: &Epoch = &current.epoch;
    let Moved {
        shard,
        moved,
        per_epoch,
    } = renumber(alloc, root.shard(i), n, &book.epochs, epoch)?;
    let left = book.rows - current.rows - moved;
    let after = refilled(alloc, root, i, shard, per_epoch.as_slice(), moved, 0)?;
    Ok((after, Reply::Migrated { moved, left }))
}

/// The root after the first `n` rows of a shard that end by the horizon were dropped, or all of these if there are
/// fewer; and the reply. The horizon is the least of the current version and the pinned ones. Where there is no such
/// shard, the root is the same. It fails only for want of memory.
pub(crate) fn swept(alloc: Global, root: &Root, i: u32, n: u64) -> Result<(Root, Reply), NoMemory>
    ensures { (numbering : Numbering) (stream : ℕ)
        → IfOk result (λ after. after ≡ next numbering root.now stream (event.Sweep i n)) }
{
    if i >= root.shards() {
        return Ok((root.copy()?, Reply::Refused(Refusal::NoShard { shard: i })));
    }
    let book = root.book();
    let horizon = horizon(book.version, book.pins.as_slice());
    let SweptShard {
        shard,
        dropped,
        left,
        per_epoch,
    } = swept_shard(alloc, root.shard(i), n, horizon)?;
    let after = refilled(alloc, root, i, shard, per_epoch.as_slice(), 0, dropped)?;
    Ok((after, Reply::Swept { dropped, left }))
}

/// The least of a version and the pinned ones.
fn horizon(version: u32, pins: &[Pin]) -> u32
    ensures { result ≡ least version (map (λ p. p.version) pins.now) }
{
    let mut least = version;
    for pin in pins {
        if pin.version < least {
            least = pin.version;
        }
    }
    least
}
