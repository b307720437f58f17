// A sweep of one shard.
ghost use Rattle.std.specs.Prelude.{◌≡◌, ◌+◌, ◌≤◌, ℕ, min, filter, IfOk};
ghost use Rattle.dl_row.specs.Lists.{count};
ghost use Rattle.dl_row.specs.Rows.{visible};
ghost use Rattle.dl_migrate.specs.Lists.{drop_first, first_that};
ghost use Rattle.dl_migrate.specs.Sweeping.{is_over};
ghost use Rattle.dl_migrate.specs.Tallies.{carries, listed, IsTally};

use crate::pick::picked_over;
use crate::tally::tally_of;
use dl_row::PlainShard;
use dl_terms::{List, NoMemory};
use std::alloc::Global;

/// What a sweep leaves of a shard, how many rows it dropped, how many that end by the horizon are left, and of each
/// epoch that a dropped row carried how many did.
#[derive(Drop)]
pub struct SweptShard {
    pub shard: PlainShard,
    pub dropped: u64,
    pub left: u64,
    pub per_epoch: List<(u32, u64)>,
}

/// Drops the first `n` rows that end by a horizon, or all of these if there are fewer. These are visible at no version
/// from the horizon on. It fails only for want of memory.
pub fn swept(
    alloc: Global,
    shard: &PlainShard,
    n: u64,
    horizon: u32,
) -> Result<SweptShard, NoMemory>
    ensures rows { IfOk result (λ s. s.shard ≡ drop_first n (is_over horizon) shard.now) }
    ensures dropped { IfOk result (λ s. s.dropped ≡ min n (count (is_over horizon) shard.now)) }
    ensures left { IfOk result (λ s. s.left ≡ count (is_over horizon) s.shard) }

    // What is visible from the horizon on stays.
    ensures visible { IfOk result (λ s.
        (v : ℕ) → horizon ≤ v → filter (visible v) s.shard ≡ filter (visible v) shard.now) }

    // By epoch, what was dropped, and so what is left.
    ensures per_epoch { IfOk result (λ s. IsTally (first_that n (is_over horizon) shard.now) s.per_epoch) }
    ensures counts { IfOk result (λ s.
        (id : ℕ) → count (carries id) s.shard + listed id s.per_epoch ≡ count (carries id) shard.now) }
{
    let picked = picked_over(alloc, shard, n, horizon)?;
    let per_epoch = tally_of(alloc, picked.rows.as_slice())?;
    let shard = shard.with(alloc, picked.places.as_slice(), &[])?;
    let left = over(&shard, horizon);
    Ok(SweptShard {
        shard,
        dropped: picked.places.len() as u64,
        left,
        per_epoch,
    })
}

/// How many rows end by a horizon.
fn over(shard: &PlainShard, horizon: u32) -> u64
    ensures { result ≡ count (is_over horizon) shard.now }
{
    let mut over = 0;
    for i in 0..shard.len() {
        if shard.row(i).last <= horizon {
            over += 1;
        }
    }
    over
}
