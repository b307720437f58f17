// Rows in a shard: changed, scanned and found.
ghost use Rattle.std.specs.Prelude.{◌≡◌, ◌+◌, ◌<◌, ◌≤◌, length};
ghost use Rattle.dl_row.specs.Shards.{max_rows};

use crate::join::mixed;
use dl_intervals::{Intervals, ascends};
use dl_row::{Kind, OPEN, PlainShard, Row};
use dl_terms::{List, NoMemory, Steps};
use std::alloc::{AllocError, Global};
use std::io;
use std::marker::Brand;
use std::sync::ledger::{Blank, Ledger};

/// What `run` takes: how many rows are drawn, of how many predicates, and how often 1,000 new ones are added to them, a
/// predicate is scanned, and a row is found.
pub const WORDS: &str = "rows ROWS PREDICATES CHANGES SCANS FINDS";

/// How many rows a change adds.
const NEW: u32 = 1000;

/// The most rows before a change.
const MOST: u64 = 4_194_304 - NEW as u64;

/// Makes the rows that the words say, changes, scans and finds them, and prints counts. False where the words say
/// nothing, or a number is out of range.
pub fn run<R: AllocGlobal + Print>(rt: &R, words: &[String]) -> io::Result<bool> {
    let (Some(rows), Some(predicates), Some(changes), Some(scans), Some(finds)) = (
        number_of(words, 1),
        number_of(words, 2),
        number_of(words, 3),
        number_of(words, 4),
        number_of(words, 5),
    ) else {
        return Ok(false);
    };
    let made = shard_of(rt.alloc(), rows, predicates).map_err(|_refused| AllocError)?;
    let Some(shard) = made else {
        return Ok(false);
    };
    let new = rows_of(rt.alloc(), predicates, u32::MAX / 2, NEW).map_err(|_refused| AllocError)?;
    let changed = changed(rt.alloc(), &shard, new.as_slice(), changes).map_err(
        |_refused| AllocError,
    )?;
    let scanned = scanned::<Brand>(rt.alloc(), &shard, predicates, scans, Blank::new(1)).map_err(
        |_refused| AllocError,
    )?;
    println!(rt;
        "rows {} changed {changed} scanned {scanned} found {}",
        shard.len(),
        found(&shard, finds)
    )?;
    Ok(true)
}

/// The number that a word is.
pub(crate) fn number_of(words: &[String], at: usize) -> Option<u32> {
    words.get(at)?.as_str().parse::<u32>().ok()
}

/// A row whose number and names look like drawn.
fn row_of(predicates: u32, i: u32) -> Row {
    let drawn = mixed(u64::from(i));
    let number = 1 + (drawn % u64::from(predicates.max(1))) as u32;
    Row {
        kind: Kind::Role,
        number,
        epoch: 1,
        s: (drawn >> 32) as u32,
        o: i,
        first: 1,
        last: OPEN,
    }
}

/// So many rows, from one on.
fn rows_of(alloc: Global, predicates: u32, from: u32, rows: u32) -> Result<List<Row>, NoMemory> {
    let mut made = List::new(alloc);
    for i in 0..rows {
        made.push(row_of(predicates, from.wrapping_add(i)))?;
    }
    Ok(made)
}

/// The shard of so many rows; none where they are too many.
fn shard_of(alloc: Global, rows: u32, predicates: u32) -> Result<Option<PlainShard>, NoMemory> {
    let made = rows_of(alloc, predicates, 0, rows)?;
    if made.len() as u64 > MOST {
        return Ok(None);
    }
    Ok(Some(PlainShard::empty(alloc).with(alloc, &[], made.as_slice())?))
}

/// How many rows there are after new ones were added, each time to the same ones.
fn changed(alloc: Global, shard: &PlainShard, new: &[Row], changes: u32) -> Result<u64, NoMemory> {
    if shard.len() > MOST || new.len() > NEW as usize {
        return Ok(0);
    }
    let mut count = shard.len();
    for _ in 0..changes {
        count = shard.with(alloc, &[], new)?.len();
    }
    Ok(count)
}

/// How many pairs the scans of one predicate after the other give.
fn scanned<L: Ledger>(
    alloc: Global,
    shard: &PlainShard,
    predicates: u32,
    scans: u32,
    blank: Blank,
) -> Result<usize, NoMemory>
    requires name { blank.name ≡ L.name }
    requires parts { blank.parts ≡ L.parts }
    requires divided { 0 < L.parts }
{
    let mut steps = Steps::<L>::new(blank);
    let mut count = 0usize;
    for i in 0..scans {
        let number = row_of(predicates, i).number;
        let mut out = List::new(alloc);
        if ascends(&[number]) {
            let Ok(ranges) = Intervals::of(alloc, &[number]) else {
                return Err(NoMemory);
            };
            shard.scan(1, Kind::Role, &ranges, 2, &mut out, &mut steps)?;
        }
        count = count.wrapping_add(out.len());
    }
    Ok(count)
}

/// How many rows are found, of those that stand far apart in the shard.
fn found(shard: &PlainShard, finds: u32) -> u32 {
    let rows = shard.len();
    if rows == 0 {
        return 0;
    }
    let mut count = 0u32;
    for i in 0..finds {
        let row = shard.row(mixed(u64::from(i)) % rows);
        if shard
            .find(row.epoch, row.kind, row.number, row.s, row.o)
            .is_some()
        {
            count = count.wrapping_add(1);
        }
    }
    count
}
