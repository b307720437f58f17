// What sweeps drop of a shard, and which of two epochs nothing needs.
use crate::epoch::both_epochs;
use crate::row::{changed, class_row, has};
use dl_epoch::Epochs;
use dl_migrate::{SweptShard, dead, swept};
use dl_row::{Kind, OPEN, PlainShard, Row};
use dl_terms::NoMemory;
use std::alloc::Global;

const GONE: Row = class_row!(1, 1, 7, 2, 4);

const KEPT: Row = class_row!(1, 1, 8, 2, OPEN);

const NEXT: Row = class_row!(2, 1, 7, 4, 5);

const LATE: Row = class_row!(2, 2, 9, 5, 6);

/// How many rows may go and the horizon; then the rows that stay, how many went, how many more may go, and by epoch how
/// many went.
type Sweep = (u64, u32, &'static [Row], u64, u64, &'static [(u32, u64)]);

const SWEEPS: [Sweep; 5] = [
    (9, 5, &[KEPT, LATE], 2, 0, &[(1, 1), (2, 1)]),
    (1, 5, &[KEPT, NEXT, LATE], 1, 1, &[(1, 1)]),
    (0, 5, &[GONE, KEPT, NEXT, LATE], 0, 2, &[]),
    (9, 4, &[KEPT, NEXT, LATE], 1, 0, &[(1, 1)]),
    (9, 3, &[GONE, KEPT, NEXT, LATE], 0, 0, &[]),
];

/// Whether a sweep gave what a row says.
fn is(found: &SweptShard, wanted: &Sweep) -> bool {
    has(&found.shard, wanted.2)
        && found.dropped == wanted.3
        && found.left == wanted.4
        && found.per_epoch.as_slice() == wanted.5
}

/// Whether sweeps of a shard give what a table says.
fn are_swept(alloc: Global, shard: &PlainShard, table: &[Sweep]) -> Result<bool, NoMemory> {
    for row in table {
        if !is(&swept(alloc, shard, row.0, row.1)?, row) {
            return Ok(false);
        }
    }
    Ok(true)
}

/// Pinned versions, and the ids of the dead ones of two epochs, which begin at the versions 3 and 7.
const DEAD: [(&[u32], &[u32]); 6] = [
    (&[], &[1]),
    (&[2], &[1]),
    (&[3], &[]),
    (&[9, 6], &[]),
    (&[7], &[1]),
    (&[8, 9], &[1]),
];

/// Whether the dead epochs are those that a table says.
fn are_dead(alloc: Global, epochs: &Epochs, table: &[(&[u32], &[u32])]) -> Result<bool, NoMemory> {
    for row in table {
        if dead(alloc, epochs, row.0)?.as_slice() != row.1 {
            return Ok(false);
        }
    }
    Ok(true)
}

/// Whether sweeps and dead epochs agree with the tables.
fn agree(alloc: Global) -> Result<bool, NoMemory> {
    let Some(shard) = changed(
        alloc,
        &PlainShard::empty(alloc),
        &[],
        &[GONE, KEPT, NEXT, LATE],
    )?
    else {
        return Ok(false);
    };
    let Some(epochs) = both_epochs(alloc)? else {
        return Ok(false);
    };
    Ok(are_swept(alloc, &shard, &SWEEPS)? && are_dead(alloc, &epochs, &DEAD)?)
}

#[test]
fn sweeps_and_dead_epochs(rt: HostRuntime) {
    assert!(rt; matches!(agree(rt.alloc()), Ok(true)));
}
