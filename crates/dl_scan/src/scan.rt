// A scan of shards for what is asked at a version.
ghost use Rattle.std.specs.Prelude.{◌≡◌, [], true, map, IfOk, OnOk};
ghost use Rattle.dl_terms.specs.Sets.{IsSetOf};
ghost use Rattle.dl_epoch.specs.Covering.{kept, epoch_in, AreEntries};
ghost use Rattle.dl_scan.specs.Pairs.{IsPairBelow, visible_facts};
ghost use Rattle.dl_terms.specs.Order.{pair_cmp};
ghost use Rattle.dl_scan.specs.Scans.{scan, Gains, Takes, TakesSifted};
ghost use Rattle.dl_scan.specs.Sieves.{passes_first};

use crate::reading::push_ranges;
use crate::sieve::Sieve;
use dl_epoch::{Entry, Epochs};
use dl_hier::Below;
use dl_row::PlainShard;
use dl_terms::{List, NoMemory, Pair, Steps, set_of};
use std::alloc::{AllocError, Global};
use std::marker::Model;
use std::sync::ledger::Ledger;

/// The predicates that are asked for, and the pairs of the facts of those rows that were taken so far. Contracts see it
/// as what is asked, the version, and the pairs.
#[derive(Drop)]
pub struct AtomScan {
    below: Below,
    version: u32,
    pairs: List<Pair>,
}

impl Model for AtomScan {
    ghost use Rattle.dl_scan.specs.Scans.{Scan};

    ghost Value = { Scan };

    ghost use Rattle.dl_scan.specs.Scans.{scan};

    ghost view = { λ s. scan s.below s.version s.pairs };
}

impl AtomScan {
    /// A scan for what is asked at a version, with no row taken. It takes no memory.
    pub fn new(alloc: Global, below: Below, version: u32) -> AtomScan
        ensures { result ≡ scan below version [] }
    {
        AtomScan {
            below,
            version,
            pairs: List::new(alloc),
        }
    }

    /// Adds the pairs, below what is asked, of the facts of those rows of a shard that are visible at the version. Each
    /// row stands for the fact that its own epoch gives it, by its id and the row's number, whichever of these epochs
    /// it carries, and a row that none of them gives a fact is passed over. It fails only for want of memory; then
    /// the scan is only to be dropped.
    pub fn take<L: Ledger>(
        &mut self,
        alloc: Global,
        epochs: &Epochs,
        shard: &PlainShard,
        steps: &mut Steps<L>,
    ) -> Result<(), NoMemory>
        ensures { OnOk result (Takes (map epoch_in epochs.now) shard.now self.old self.new) }
    {
        let sieve = Sieve::all(alloc);
        self.take_sifted(alloc, epochs, shard, &sieve, steps)
    }

    /// Adds those of these pairs whose first name passes a sieve. So a large part of a shard is gone through without
    /// being kept. It fails only for want of memory; then the scan is only to be dropped.
    pub fn take_sifted<L: Ledger>(
        &mut self,
        alloc: Global,
        epochs: &Epochs,
        shard: &PlainShard,
        sieve: &Sieve,
        steps: &mut Steps<L>,
    ) -> Result<(), NoMemory>
        ensures { OnOk result (TakesSifted (map epoch_in epochs.now) shard.now sieve.now self.old self.new) }
    {
        let entries = epochs.entries();
        push_epochs(
            alloc,
            entries,
            shard,
            &self.below,
            self.version,
            sieve,
            &mut self.pairs,
            steps,
        )
    }

    /// The pairs, sorted, each once. It takes room for as many pairs, and fails only for want of memory.
    pub fn finish(self) -> Result<List<Pair>, NoMemory>
        ensures { IfOk result (λ pairs. IsSetOf pair_cmp pairs self.pairs) }
    {
        Ok(set_of_runs(self.pairs)?)
    }
}

/// Adds the pairs of the visible rows that epochs have below what is asked, where their first names pass: the rows of
/// each epoch by its own intervals.
fn push_epochs<L: Ledger>(
    alloc: Global,
    entries: &[Entry],
    shard: &PlainShard,
    below: &Below,
    version: u32,
    sieve: &Sieve,
    pairs: &mut List<Pair>,
    steps: &mut Steps<L>,
) -> Result<(), NoMemory>
    requires { AreEntries (map kept entries.now) }
    ensures { OnOk result (Gains pairs.old pairs.new
        (λ p. IsPairBelow (visible_facts (map epoch_in (map kept entries.now)) version shard.now) below.now p
        × (passes_first sieve.now p ≡ true))) }
{
    for entry in entries {
        let ranges = entry.epoch.translate(alloc, below)?;
        push_ranges(
            alloc,
            shard,
            entry.epoch.id(),
            &ranges,
            version,
            sieve,
            pairs,
            steps,
        )?;
    }
    Ok(())
}

/// The set of pairs that ascend run by run, as those of each number do. A stable sort finds the runs and puts them
/// together, so it is linear where they are few.
fn set_of_runs(pairs: List<Pair>) -> Result<List<Pair>, AllocError>
    ensures { IfOk result (λ set. IsSetOf pair_cmp set pairs) }
{
    let mut sorted = pairs.into_vec();
    sorted.sort()?;
    Ok(set_of(List::of(sorted)))
}
