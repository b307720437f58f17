// Pairs below what is asked, of rows that carry either of two epochs.
ghost use Rattle.std.specs.Prelude.{◌≡◌, ◌<◌};

use crate::epoch::{A, AA, Asked, B, N, P, below_of, both_epochs};
use crate::row::{changed, class_row, role_row};
use dl_epoch::Epochs;
use dl_row::{Kind, OPEN, PlainShard, Row};
use dl_scan::AtomScan;
use dl_terms::{NoMemory, Pair, Steps};
use std::alloc::Global;
use std::marker::Brand;
use std::sync::ledger::{Blank, Ledger};

/// What is asked, a version, the rows of each shard, and the pairs.
type Case = (Asked, u32, &'static [&'static [Row]], &'static [Pair]);

/// The classes below B in the first epoch.
const BELOW_B: Asked = (&[A, B], &[], &[]);

/// An A of the first epoch, where B comes first, and one of each class of the second, the last of which ends at version
/// 2.
const MIXED: &[Row] = &[
    class_row!(1, 2, 20, 1, OPEN),
    class_row!(2, 1, 21, 1, OPEN),
    class_row!(2, 2, 22, 1, OPEN),
    class_row!(2, 3, 23, 1, 2),
];

/// Links of both epochs: P has the number 1 in the first and 2 in the second, where N has 1.
const LINKS: &[Row] = &[
    role_row!(1, 1, 20, 21, 1, OPEN),
    role_row!(2, 1, 22, 20, 1, OPEN),
    role_row!(2, 2, 20, 21, 1, OPEN),
    role_row!(2, 2, 23, 22, 2, OPEN),
];

const CASES: [Case; 13] = [
    // An AA isn't asked for, and the B isn't visible at 2.
    (BELOW_B, 2, &[MIXED], &[(20, 20), (21, 21)]),
    // Two intervals of the second epoch.
    (BELOW_B, 1, &[MIXED], &[(20, 20), (21, 21), (23, 23)]),
    // Nothing is visible yet, and the end of all versions.
    (BELOW_B, 0, &[MIXED], &[]),
    (BELOW_B, OPEN, &[MIXED], &[]),
    // Only the second epoch has this class: the number 2 is another class in the first.
    (
        (&[AA], &[], &[]),
        2,
        &[MIXED, &[class_row!(1, 2, 24, 1, OPEN)]],
        &[(22, 22)],
    ),
    (
        (&[B], &[], &[]),
        2,
        &[MIXED, &[class_row!(1, 1, 24, 1, OPEN)]],
        &[(24, 24)],
    ),
    // Rows in several shards, each pair once.
    (
        BELOW_B,
        1,
        &[
            MIXED,
            &[],
            &[class_row!(1, 2, 19, 1, OPEN), class_row!(2, 1, 20, 1, OPEN)],
            MIXED,
        ],
        &[(19, 19), (20, 20), (21, 21), (23, 23)],
    ),
    (BELOW_B, 1, &[], &[]),
    // Roles as they stand, turned, and both.
    ((&[], &[P], &[]), 2, &[LINKS], &[(20, 21), (23, 22)]),
    ((&[], &[], &[P]), 2, &[LINKS], &[(21, 20), (22, 23)]),
    ((&[], &[N], &[P]), 1, &[LINKS, LINKS], &[(21, 20), (22, 20)]),
    // Classes and roles have the same numbers.
    (
        (&[A, B], &[P], &[]),
        1,
        &[LINKS, MIXED],
        &[(20, 20), (20, 21), (21, 21), (23, 23)],
    ),
    ((&[], &[], &[]), 1, &[LINKS, MIXED], &[]),
];

/// Whether the pairs of the shards of a row are its own.
fn gives<L: Ledger>(
    alloc: Global,
    epochs: &Epochs,
    steps: &mut Steps<L>,
    case: &Case,
) -> Result<bool, NoMemory> {
    let mut scan = AtomScan::new(alloc, below_of(alloc, &case.0)?, case.1);
    for rows in case.2 {
        let Some(shard) = changed(alloc, &PlainShard::empty(alloc), &[], rows)? else {
            return Ok(false);
        };
        scan.take(alloc, epochs, &shard, steps)?;
    }
    let pairs = scan.finish()?;
    Ok(pairs.as_slice() == case.3)
}

/// Whether that is so in each row of a table.
fn all_give<L: Ledger>(
    alloc: Global,
    epochs: &Epochs,
    blank: Blank,
    table: &[Case],
) -> Result<bool, NoMemory>
    requires name { blank.name ≡ L.name }
    requires parts { blank.parts ≡ L.parts }
    requires divided { 0 < L.parts }
{
    let mut steps = Steps::<L>::new(blank);
    for case in table {
        if !gives(alloc, epochs, &mut steps, case)? {
            return Ok(false);
        }
    }
    Ok(true)
}

/// Whether scans over both epochs give the pairs of the table.
fn scans_agree(alloc: Global) -> bool {
    let Ok(Some(epochs)) = both_epochs(alloc) else {
        return false;
    };
    matches!(
        all_give::<Brand>(alloc, &epochs, Blank::new(1), &CASES),
        Ok(true)
    )
}

#[test]
fn scans_give_the_pairs_below_by_each_epoch(rt: HostRuntime) {
    assert!(rt; scans_agree(rt.alloc()));
}
