// The rows of one epoch, read by its own intervals.
ghost use Rattle.std.specs.Prelude.{◌≡◌, ◌++◌, ◌∷◌, [], map, filter, OnOk};
ghost use Rattle.dl_scan.specs.Reading.{kind_of, pair_of, pairs_read, all_read};
ghost use Rattle.dl_scan.specs.Sieves.{passes_first};

use crate::sieve::Sieve;
use dl_epoch::Ranges;
use dl_intervals::Intervals;
use dl_row::{Kind, PlainShard};
use dl_terms::{List, NoMemory, Pair, Steps};
use std::alloc::Global;
use std::sync::ledger::Ledger;

/// How rows are read: those of classes, those of roles as they stand, and those of roles whose inverse is meant.
#[derive(Clone, Copy)]
pub enum Reading {
    Members,
    Forward,
    Backward,
}

/// The kind of the rows that are read so.
fn kind_of(how: Reading) -> Kind
    ensures { result ≡ kind_of how }
{
    match how {
        Reading::Members => Kind::Class,
        Reading::Forward => Kind::Role,
        Reading::Backward => Kind::Role,
    }
}

/// The pair that the ends of a row are read as.
fn pair_of(how: Reading, ends: Pair) -> Pair
    ensures { result ≡ pair_of how ends }
{
    match how {
        Reading::Members => (ends.0, ends.0),
        Reading::Forward => ends,
        Reading::Backward => (ends.1, ends.0),
    }
}

/// Adds the pairs of the visible rows of an epoch that are read by these intervals, where their first names pass.
pub fn push_ranges<L: Ledger>(
    alloc: Global,
    shard: &PlainShard,
    epoch: u32,
    ranges: &Ranges,
    version: u32,
    sieve: &Sieve,
    pairs: &mut List<Pair>,
    steps: &mut Steps<L>,
) -> Result<(), NoMemory>
    ensures { OnOk result
        (pairs.new ≡ pairs.old ++ filter (passes_first sieve.now) (all_read epoch ranges.now version shard.now)) }
{
    push_read(
        alloc,
        shard,
        Reading::Members,
        epoch,
        &ranges.classes,
        version,
        sieve,
        pairs,
        steps,
    )?;
    push_read(
        alloc,
        shard,
        Reading::Forward,
        epoch,
        &ranges.forward,
        version,
        sieve,
        pairs,
        steps,
    )?;
    push_read(
        alloc,
        shard,
        Reading::Backward,
        epoch,
        &ranges.backward,
        version,
        sieve,
        pairs,
        steps,
    )
}

/// Adds the pairs of the visible rows of an epoch whose numbers stand in some intervals, where their first names pass.
fn push_read<L: Ledger>(
    alloc: Global,
    shard: &PlainShard,
    how: Reading,
    epoch: u32,
    ranges: &Intervals,
    version: u32,
    sieve: &Sieve,
    pairs: &mut List<Pair>,
    steps: &mut Steps<L>,
) -> Result<(), NoMemory>
    ensures { OnOk result
        (pairs.new ≡ pairs.old ++ filter (passes_first sieve.now) (pairs_read how epoch ranges.now version shard.now)) }
{
    let mut found = List::new(alloc);
    shard.scan(epoch, kind_of(how), ranges, version, &mut found, steps)?;
    push_ends(how, found.as_slice(), sieve, pairs)
}

/// Adds the pairs that the ends of rows are read as, where their first names pass.
fn push_ends(
    how: Reading,
    ends: &[Pair],
    sieve: &Sieve,
    pairs: &mut List<Pair>,
) -> Result<(), NoMemory>
    ensures { OnOk result
        (pairs.new ≡ pairs.old ++ filter (passes_first sieve.now) (map (pair_of how) ends.now)) }
{
    for end in ends {
        push_passing(pair_of(how, *end), sieve, pairs)?;
    }
    Ok(())
}

/// Adds a pair where its first name passes.
fn push_passing(pair: Pair, sieve: &Sieve, pairs: &mut List<Pair>) -> Result<(), NoMemory>
    ensures { OnOk result (pairs.new ≡ pairs.old ++ filter (passes_first sieve.now) (pair ∷ [])) }
{
    if sieve.passes(pair.0) {
        return pairs.push(pair);
    }
    Ok(())
}
