// About how many pairs a probe has, which only decides how they are looked for. Nothing is fetched for it.
use crate::probes::below_of;
use crate::slots::KeptLists;
use dl_core::Reads;
use dl_epoch::Ranges;
use dl_hier::Hier;
use dl_intervals::Intervals;
use dl_row::{Kind, PlainShard, Row};
use dl_terms::{NoMemory, Probe};
use std::alloc::Global;

/// The length of the list that is kept of a probe, or else about how many rows are below it.
pub(crate) fn size_of<R: Reads>(
    alloc: Global,
    hier: &Hier,
    reads: &R,
    probe: &Probe,
    kept: &KeptLists,
) -> Result<usize, NoMemory> {
    match kept.size(probe) {
        Some(size) => Ok(size),
        None => rows_below(alloc, hier, reads, probe),
    }
}

/// How many rows are about below a probe: as many in each shard as in the one that was fetched last, those among them
/// that the version doesn't see.
fn rows_below<R: Reads>(
    alloc: Global,
    hier: &Hier,
    reads: &R,
    probe: &Probe,
) -> Result<usize, NoMemory> {
    let below = below_of(alloc, hier, probe)?;
    let mut count = 0usize;
    for entry in reads.book().epochs.entries() {
        let ranges = entry.epoch.translate(alloc, &below)?;
        count = count.saturating_add(rows_of_ranges(reads.shard(), entry.epoch.id(), &ranges));
    }
    Ok(count.saturating_mul(reads.shards() as usize))
}

fn rows_of_ranges(shard: &PlainShard, epoch: u32, ranges: &Ranges) -> usize {
    let classes = rows_within(shard, epoch, Kind::Class, &ranges.classes);
    let forward = rows_within(shard, epoch, Kind::Role, &ranges.forward);
    let backward = rows_within(shard, epoch, Kind::Role, &ranges.backward);
    classes.saturating_add(forward).saturating_add(backward)
}

/// How many rows of an epoch and a kind have a number in some intervals.
fn rows_within(shard: &PlainShard, epoch: u32, kind: Kind, ranges: &Intervals) -> usize {
    let mut count = 0usize;
    for i in 0..ranges.len() {
        let (first, last) = ranges.get(i);
        let start = place_of(shard, epoch, kind, first);
        let end = place_of(shard, epoch, kind, last + 1);
        count = count.saturating_add(end.saturating_sub(start));
    }
    count
}

/// Where the rows of a number begin, by a binary search.
fn place_of(shard: &PlainShard, epoch: u32, kind: Kind, number: u32) -> usize {
    let bound = Row {
        kind,
        number,
        epoch,
        s: 0,
        o: 0,
        first: 0,
        last: 0,
    };
    let (mut low, mut high) = (0, shard.len());
    while low < high {
        let middle = low + (high - low) / 2;
        if shard.row(middle).cmp(&bound).is_lt() {
            low = middle + 1;
        } else {
            high = middle;
        }
    }
    low as usize
}
