ghost use Rattle.std.specs.Prelude.{◌≡◌, ◌+◌, ◌<◌, ◌≤◌, length, All};
ghost use Rattle.std.specs.Bool.{OnTrue};
ghost use Rattle.std.specs.List.Sorted.{IsStrictlyIncreasing};
ghost use Rattle.dl_row.specs.Lists.{left_of};
ghost use Rattle.dl_row.specs.Shards.{max_rows};

use dl_intervals::{Intervals, ascends};
use dl_row::{Kind, OPEN, PlainShard, Row, rows_are_ordered};
use dl_terms::{List, NoMemory, Pair, Steps};
use std::alloc::Global;
use std::marker::Brand;
use std::sync::ledger::{Blank, Ledger};
use std::test::Fail;

macro_rules! class_row {
    ($epoch:expr, $number:expr, $who:expr, $first:expr, $last:expr) => {
        Row {
            kind: Kind::Class,
            number: $number,
            epoch: $epoch,
            s: $who,
            o: $who,
            first: $first,
            last: $last,
        }
    };
}

macro_rules! role_row {
    ($epoch:expr, $number:expr, $s:expr, $o:expr, $first:expr, $last:expr) => {
        Row {
            kind: Kind::Role,
            number: $number,
            epoch: $epoch,
            s: $s,
            o: $o,
            first: $first,
            last: $last,
        }
    };
}

pub(crate) use class_row;
pub(crate) use role_row;

/// First and last version of a row, a version, and whether it is visible there.
const SEEN: [(u32, u32, u32, bool); 9] = [
    (3, 5, 2, false),
    (3, 5, 3, true),
    (3, 5, 4, true),
    (3, 5, 5, false),
    (3, OPEN, 3, true),
    (3, OPEN, OPEN - 1, true),
    (3, OPEN, OPEN, false),
    (4, 4, 4, false),
    (0, 1, 0, true),
];

/// Whether rows are visible as the table says.
fn are_seen(table: &[(u32, u32, u32, bool)]) -> bool {
    for case in table {
        if class_row!(1, 1, 0, case.0, case.1).visible(case.2) != case.3 {
            return false;
        }
    }
    true
}

#[test]
fn rows_are_visible_from_first_to_before_last(rt: HostRuntime) {
    rows_are_ordered();
    assert!(rt; are_seen(&SEEN));
}

/// Whether a list of places ascends, and all are below a bound.
fn are_places(places: &[u64], bound: u64) -> bool
    ensures ascend { OnTrue result (IsStrictlyIncreasing places.now) }
    ensures within { OnTrue result (All (λ place. place < bound) places.now) }
{
    for (i, place) in places.iter().enumerate() {
        if *place >= bound {
            return false;
        }
        if i > 0 && *place <= places[i - 1] {
            return false;
        }
    }
    true
}

/// Whether the shard has exactly these rows, in this order.
pub(crate) fn has(shard: &PlainShard, rows: &[Row]) -> bool {
    if shard.len() != rows.len() as u64 {
        return false;
    }
    for i in 0..shard.len() {
        if shard.row(i) != rows[i as usize] {
            return false;
        }
    }
    true
}

/// The shard without some rows and with others; none where a place is wrong or there are many rows.
pub(crate) fn changed(
    alloc: Global,
    shard: &PlainShard,
    without: &[u64],
    new: &[Row],
) -> Result<Option<PlainShard>, NoMemory> {
    if !are_places(without, shard.len()) || shard.len() > 1000 || new.len() > 1000 {
        return Ok(None);
    }
    Ok(Some(shard.with(alloc, without, new)?))
}

/// Whether a change of a shard of some rows leaves these.
fn leaves(
    alloc: Global,
    before: &[Row],
    without: &[u64],
    new: &[Row],
    after: &[Row],
) -> Result<bool, NoMemory> {
    let Some(shard) = changed(alloc, &PlainShard::empty(alloc), &[], before)? else {
        return Ok(false);
    };
    let Some(next) = changed(alloc, &shard, without, new)? else {
        return Ok(false);
    };
    Ok(has(&next, after))
}

/// Whether that is so in each row of a table: rows, places, new rows and what is left.
fn all_leave(alloc: Global, table: &[(&[Row], &[u64], &[Row], &[Row])]) -> Result<bool, NoMemory> {
    for case in table {
        if !leaves(alloc, case.0, case.1, case.2, case.3)? {
            return Ok(false);
        }
    }
    Ok(true)
}

const LOW: Row = class_row!(1, 1, 5, 1, OPEN);

const MIDDLE: Row = class_row!(1, 2, 0, 1, OPEN);

const LINK: Row = role_row!(1, 1, 0, 0, 1, OPEN);

const LATE: Row = class_row!(2, 1, 0, 2, OPEN);

const CHANGES: [(&[Row], &[u64], &[Row], &[Row]); 9] = [
    // The order: by epoch, kind, number, names and versions, whatever the order of the new rows.
    (
        &[],
        &[],
        &[LATE, LINK, MIDDLE, LOW],
        &[LOW, MIDDLE, LINK, LATE],
    ),
    (
        &[],
        &[],
        &[
            role_row!(1, 3, 4, 7, 2, OPEN),
            role_row!(1, 3, 4, 7, 2, 9),
            role_row!(1, 3, 4, 7, 1, OPEN),
            role_row!(1, 3, 4, 6, 8, OPEN),
            role_row!(1, 3, 3, 9, 8, OPEN),
        ],
        &[
            role_row!(1, 3, 3, 9, 8, OPEN),
            role_row!(1, 3, 4, 6, 8, OPEN),
            role_row!(1, 3, 4, 7, 1, OPEN),
            role_row!(1, 3, 4, 7, 2, 9),
            role_row!(1, 3, 4, 7, 2, OPEN),
        ],
    ),
    // Nothing changes.
    (&[LOW, LATE], &[], &[], &[LOW, LATE]),
    // New ones at both ends, and between.
    (
        &[MIDDLE, LINK],
        &[],
        &[LATE, LOW],
        &[LOW, MIDDLE, LINK, LATE],
    ),
    (&[LOW, LATE], &[], &[LINK], &[LOW, LINK, LATE]),
    // Places at both ends.
    (&[LOW, MIDDLE, LINK, LATE], &[0, 3], &[], &[MIDDLE, LINK]),
    // All but one, and all, with one new.
    (&[LOW, MIDDLE, LINK], &[0, 2], &[LATE], &[MIDDLE, LATE]),
    (&[LOW, MIDDLE, LINK], &[0, 1, 2], &[LATE], &[LATE]),
    // Doubles stay, and only the one at the place goes.
    (
        &[LOW, LOW, MIDDLE],
        &[1],
        &[MIDDLE, LOW],
        &[LOW, LOW, MIDDLE, MIDDLE],
    ),
];

#[test]
fn changes_leave_rows_in_order(rt: HostRuntime) {
    assert!(rt; matches!(all_leave(rt.alloc(), &CHANGES), Ok(true)));
}

const KEPT: [Row; 9] = [
    class_row!(1, 1, 4, 1, 2),
    class_row!(1, 1, 4, 3, OPEN),
    class_row!(1, 1, 4, 5, OPEN),
    class_row!(1, 2, 4, 1, 2),
    role_row!(1, 1, 4, 4, 1, OPEN),
    role_row!(1, 2, 4, 5, 1, 3),
    class_row!(2, 1, 4, 1, OPEN),
    role_row!(2, 1, 3, 4, 1, OPEN),
    role_row!(2, 1, 3, 5, 1, OPEN),
];

/// Epoch, kind, number and names of a row, and its place.
const FOUND: [((u32, Kind, u32, u32, u32), Option<u64>); 10] = [
    ((1, Kind::Class, 1, 4, 4), Some(1)),
    ((1, Kind::Class, 2, 4, 4), None),
    ((1, Kind::Role, 1, 4, 4), Some(4)),
    ((1, Kind::Role, 2, 4, 5), None),
    ((2, Kind::Class, 1, 4, 4), Some(6)),
    ((2, Kind::Role, 1, 3, 5), Some(8)),
    ((2, Kind::Role, 1, 3, 6), None),
    ((2, Kind::Role, 1, 3, 3), None),
    ((3, Kind::Class, 1, 4, 4), None),
    ((0, Kind::Class, 1, 4, 4), None),
];

/// Whether open rows are found as the table says.
fn are_found(shard: &PlainShard, table: &[((u32, Kind, u32, u32, u32), Option<u64>)]) -> bool {
    for case in table {
        let (epoch, kind, number, s, o) = case.0;
        if shard.find(epoch, kind, number, s, o) != case.1 {
            return false;
        }
    }
    true
}

/// The shard of the kept rows, and none if they aren't given.
fn kept(alloc: Global) -> Result<Option<PlainShard>, NoMemory> {
    changed(alloc, &PlainShard::empty(alloc), &[], &KEPT)
}

/// Whether the kept rows are there, and are found.
fn keeps_and_finds(alloc: Global) -> bool {
    match kept(alloc) {
        Ok(Some(shard)) => has(&shard, &KEPT) && are_found(&shard, &FOUND),
        _ => false,
    }
}

#[test]
fn first_open_rows_are_found(rt: HostRuntime) {
    assert!(rt; keeps_and_finds(rt.alloc()));
}

/// Epoch, kind, numbers and version of a scan, and the pairs that it gives.
const SCANS: [(u32, Kind, &[u32], u32, &[Pair]); 11] = [
    (1, Kind::Class, &[1], 1, &[(4, 4)]),
    (1, Kind::Class, &[1], 2, &[]),
    (1, Kind::Class, &[1], 5, &[(4, 4), (4, 4)]),
    (1, Kind::Class, &[1, 2], 1, &[(4, 4), (4, 4)]),
    (1, Kind::Class, &[2], 2, &[]),
    (1, Kind::Role, &[1, 2], 2, &[(4, 4), (4, 5)]),
    // Two intervals, and numbers that no row has.
    (1, Kind::Role, &[0, 2, 9], 2, &[(4, 5)]),
    (1, Kind::Role, &[1, 7], 3, &[(4, 4)]),
    (2, Kind::Role, &[1], 1, &[(3, 4), (3, 5)]),
    // No interval, and an epoch that no row has.
    (2, Kind::Role, &[], 1, &[]),
    (3, Kind::Class, &[1, 2, 3], 1, &[]),
];

/// Whether a scan gives these pairs behind those that were there.
fn gives<L: Ledger>(
    alloc: Global,
    shard: &PlainShard,
    steps: &mut Steps<L>,
    case: &(u32, Kind, &[u32], u32, &[Pair]),
) -> Result<bool, NoMemory> {
    if !ascends(case.2) {
        return Ok(false);
    }
    let Ok(ranges) = Intervals::of(alloc, case.2) else {
        return Err(NoMemory);
    };
    let mut out = List::new(alloc);
    out.push((8, 9))?;
    shard.scan(case.0, case.1, &ranges, case.3, &mut out, steps)?;
    Ok(out.as_slice()[0] == (8, 9) && &out.as_slice()[1..] == case.4)
}

/// Whether that is so in each row of a table.
fn all_give<L: Ledger>(
    alloc: Global,
    shard: &PlainShard,
    blank: Blank,
    table: &[(u32, Kind, &[u32], u32, &[Pair])],
) -> Result<bool, NoMemory>
    requires name { blank.name ≡ L.name }
    requires parts { blank.parts ≡ L.parts }
    requires divided { 0 < L.parts }
{
    let mut steps = Steps::<L>::new(blank);
    for case in table {
        if !gives(alloc, shard, &mut steps, case)? {
            return Ok(false);
        }
    }
    Ok(true)
}

#[test]
fn scans_give_the_visible_pairs(rt: HostRuntime) -> Result<(), Fail> {
    let shard = kept(rt.alloc())?.ok_or("rows")?;
    assert!(rt; all_give::<Brand>(rt.alloc(), &shard, Blank::new(1), &SCANS)?);
    Ok(())
}
