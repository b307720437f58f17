// The pairs of the facts of a version below what is asked: every shard is fetched once, in order.
ghost use Rattle.std.specs.Prelude.{◌≡◌, ◌<◌, List as Items, IfOk};
ghost use Rattle.std.specs.List.Sorted.{IsSorted};
ghost use Rattle.dl_terms.specs.declared.axiom.Fact.{Fact};
ghost use Rattle.dl_terms.specs.Order.{pair_cmp};
ghost use Rattle.dl_answer.specs.Readers.{HasFacts, HasFetched};
ghost use Rattle.dl_answer.specs.Probes.{ArePairsBelow};
ghost use Rattle.dl_answer.specs.Sifted.{ArePairsSifted};

use dl_core::Reads;
use dl_hier::Below;
use dl_scan::{AtomScan, Sieve};
use dl_terms::{List, NoMemory, Pair, Steps};
use std::alloc::Global;
use std::marker::Brand;
use std::sync::ledger::{Blank, Ledger};

/// The pairs, below what is asked, of the facts of the version that is pinned, ascending, each once.
pub(crate) fn pairs_below<R: Reads>(
    alloc: Global,
    reads: &mut R,
    version: u32,
    below: Below,
) -> Result<List<Pair>, NoMemory>
    requires pin { (R.reader reads.old).pin ≡ Some version }
    ensures fetched { HasFetched (R.stands reads.old) (R.reader reads.old) (R.stands reads.new) (R.reader reads.new) }
    ensures sorted { IfOk result (IsSorted pair_cmp) }
    ensures pairs { (facts : Items Fact) → HasFacts (R.stands reads.old) version facts →
        IfOk result (ArePairsBelow facts below) }
{
    let sieve = Sieve::all(alloc);
    pairs_sifted(alloc, reads, version, below, &sieve)
}

/// Those of these pairs whose first name passes a sieve.
pub(crate) fn pairs_sifted<R: Reads>(
    alloc: Global,
    reads: &mut R,
    version: u32,
    below: Below,
    sieve: &Sieve,
) -> Result<List<Pair>, NoMemory>
    requires pin { (R.reader reads.old).pin ≡ Some version }
    ensures fetched { HasFetched (R.stands reads.old) (R.reader reads.old) (R.stands reads.new) (R.reader reads.new) }
    ensures sorted { IfOk result (IsSorted pair_cmp) }
    ensures pairs { (facts : Items Fact) → HasFacts (R.stands reads.old) version facts →
        IfOk result (ArePairsSifted facts below sieve.now) }
{
    scanned::<R, Brand>(alloc, reads, version, below, sieve, Blank::new(1))
}

/// These pairs, found by a scan over a ledger that nothing has counted in yet.
fn scanned<R: Reads, L: Ledger>(
    alloc: Global,
    reads: &mut R,
    version: u32,
    below: Below,
    sieve: &Sieve,
    blank: Blank,
) -> Result<List<Pair>, NoMemory>
    requires pin { (R.reader reads.old).pin ≡ Some version }
    requires name { blank.name ≡ L.name }
    requires parts { blank.parts ≡ L.parts }
    requires divided { 0 < L.parts }
    ensures fetched { HasFetched (R.stands reads.old) (R.reader reads.old) (R.stands reads.new) (R.reader reads.new) }
    ensures sorted { IfOk result (IsSorted pair_cmp) }
    ensures pairs { (facts : Items Fact) → HasFacts (R.stands reads.old) version facts →
        IfOk result (ArePairsSifted facts below sieve.now) }
{
    let mut steps = Steps::<L>::new(blank);
    let mut scan = AtomScan::new(alloc, below, version);
    for shard in 0..reads.shards() {
        reads.fetch(shard);
        scan.take_sifted(
            alloc,
            &reads.book().epochs,
            reads.shard(),
            sieve,
            &mut steps,
        )?;
    }
    scan.finish()
}
