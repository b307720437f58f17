// The shards of a load.
ghost use Rattle.std.specs.Prelude.{◌≡◌, ◌<◌, ◌≤◌, map, length, All, IfOk};
ghost use Rattle.std.specs.Arc.{arc_value};
ghost use Rattle.dl_row.specs.Lists.{ordered};
ghost use Rattle.dl_row.specs.Rows.{row_cmp};
ghost use Rattle.dl_row.specs.Shards.{max_rows};
ghost use Rattle.dl_epoch.specs.Frozen.{from_version};
ghost use Rattle.dl_core.specs.Next.{row_for};
ghost use Rattle.dl_core.specs.Loading.{IsFactIn, AreOrderedParts};

use crate::new_rows::rows_by_shard;
use dl_epoch::Epoch;
use dl_row::{PlainShard, Row};
use dl_terms::{Fact, List, NoMemory};
use std::alloc::Global;
use std::mem;
use std::sync::Arc;

/// The shards of facts, each by its row from version 1 on. It fails only for want of memory.
pub(crate) fn loaded_shards(
    alloc: Global,
    epoch: &Epoch,
    facts: &[Fact],
    shards: u32,
) -> Result<List<Arc<PlainShard, Global>>, NoMemory>
    requires known { All (IsFactIn epoch.now.signature) facts.now }
    requires some { 0 < shards }
    requires few { length facts.now ≤ max_rows }
    ensures { IfOk result (λ made. AreOrderedParts shards
        (map (row_for (from_version 1 epoch.now) 1) facts.now) (map arc_value made)) }
{
    let mut parts = rows_by_shard(alloc, epoch, 1, facts, shards)?;
    let mut made = List::new(alloc);
    for i in 0..shards as usize {
        // Rows are let go as soon as their shard has them.
        let rows = mem::replace(&mut parts[i], List::new(alloc));
        made.push(shard_of(alloc, rows)?)?;
    }
    Ok(made)
}

/// The shard of some rows. It fails only for want of memory.
fn shard_of(alloc: Global, rows: List<Row>) -> Result<Arc<PlainShard, Global>, NoMemory>
    requires { length rows ≤ max_rows }
    ensures { IfOk result (λ shard. arc_value shard ≡ ordered row_cmp rows) }
{
    let shard = PlainShard::empty(alloc).with(alloc, &[], rows.as_slice())?;
    match Arc::new(alloc, shard) {
        Ok(shard) => Ok(shard),
        Err(_) => Err(NoMemory),
    }
}
