// The first rows of a shard that pass a test, with their places.
ghost use Rattle.std.specs.Prelude.{◌≡◌, ◌-◌, ◌≤◌, ◌++◌, ◌∷◌, [], take, length, IfOk, OnOk};
ghost use Rattle.dl_row.specs.Lists.{Ascends};
ghost use Rattle.dl_row.specs.Rows.{row_cmp};
ghost use Rattle.dl_row.specs.Shards.{max_rows};
ghost use Rattle.dl_migrate.specs.Picking.{ArePicked};
ghost use Rattle.dl_migrate.specs.Moving.{is_behind};
ghost use Rattle.dl_migrate.specs.Sweeping.{is_over};

use dl_row::{PlainShard, Row};
use dl_terms::{List, NoMemory};
use std::alloc::Global;

/// Rows of a shard, and their places.
#[derive(Drop)]
pub struct Picked {
    pub places: List<u64>,
    pub rows: List<Row>,
}

/// The first rows that end by a horizon, `n` of them or all if there are fewer.
pub fn picked_over(
    alloc: Global,
    shard: &PlainShard,
    n: u64,
    horizon: u32,
) -> Result<Picked, NoMemory>
    ensures picked { IfOk result (λ picked.
        ArePicked n (is_over horizon) shard.now picked.places picked.rows) }
    ensures up { Ascends row_cmp shard.now }
    ensures most { length shard.now ≤ max_rows }
{
    let mut picked = Picked {
        places: List::new(alloc),
        rows: List::new(alloc),
    };
    for i in 0..shard.len() {
        let row = shard.row(i);
        if row.last <= horizon {
            add(&mut picked, n, i, row)?;
        }
    }
    Ok(picked)
}

/// The first rows that carry another epoch than the one with an id, `n` of them or all if there are fewer.
pub fn picked_behind(alloc: Global, shard: &PlainShard, n: u64, id: u32) -> Result<Picked, NoMemory>
    ensures picked { IfOk result (λ picked.
        ArePicked n (is_behind id) shard.now picked.places picked.rows) }
    ensures up { Ascends row_cmp shard.now }
    ensures most { length shard.now ≤ max_rows }
{
    let mut picked = Picked {
        places: List::new(alloc),
        rows: List::new(alloc),
    };
    for i in 0..shard.len() {
        let row = shard.row(i);
        if row.epoch != id {
            add(&mut picked, n, i, row)?;
        }
    }
    Ok(picked)
}

/// Adds a row and its place, where there are fewer than `n` so far.
fn add(picked: &mut Picked, n: u64, place: u64, row: Row) -> Result<(), NoMemory>
    ensures places { OnOk result
        (picked.new.places ≡ picked.old.places ++ take (n - length picked.old.places) (place ∷ [])) }
    ensures rows { OnOk result
        (picked.new.rows ≡ picked.old.rows ++ take (n - length picked.old.places) (row ∷ [])) }
{
    if (picked.places.len() as u64) < n {
        picked.places.push(place)?;
        picked.rows.push(row)?;
    }
    Ok(())
}
