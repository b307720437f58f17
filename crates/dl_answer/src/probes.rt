// The lists of the pairs of probes, and the tuples of a disjunct over them.
ghost use Rattle.std.specs.Prelude.{◌≡◌, ◌<◌, ◌≤◌, ◌^◌, ◌⊎◌, ◌↔◌, List as Items, [], length, IfOk, IsTrue};
ghost use Rattle.std.specs.List.{Any};
ghost use Rattle.std.specs.List.Sorted.{IsSorted};
ghost use Rattle.dl_terms.specs.declared.axiom.Axiom.{Axiom};
ghost use Rattle.dl_terms.specs.declared.axiom.Fact.{Fact};
ghost use Rattle.dl_hier.specs.Hierarchy.{IsHierarchyOf};
ghost use Rattle.dl_join.specs.Disjuncts.{IsSafe, AreSorted};
ghost use Rattle.dl_terms.specs.Order.{pair_cmp};
ghost use Rattle.dl_rewrite.specs.OverNames.{HasOverNames};
ghost use Rattle.dl_answer.specs.OverNames.{AreBelow};
ghost use Rattle.dl_answer.specs.Readers.{HasFacts, HasFetched};
ghost use Rattle.dl_answer.specs.Probes.{AreBehind, AreBelowProbe, HoldAlike, IsListOf};
ghost use Rattle.dl_answer.specs.Kept.{AreKept, AreFirst};
ghost use Rattle.dl_answer.specs.Sifted.{AreOfOneTerm};
ghost use Rattle.dl_answer.specs.Searches.{AreRead, AreFirstLists, FindsTuples, GoesOn};

use crate::kept::{copy_of, earlier, keep_all};
use crate::pairs::pairs_below;
use crate::slots::KeptLists;
use crate::uneven::{Fewer, lists_by_fewer, which_has_fewer};
use dl_core::Reads;
use dl_hier::{Below, Hier};
use dl_join::{JoinFault, join};
use dl_terms::{Disjunct, List, NoMemory, Pair, Probe, Role, Tuples};
use std::alloc::Global;

/// The tuples of a disjunct over names, each once, ascending. `TooMany` comes exactly where they are more than the
/// limit. Lists that are kept of its probes are lent by moving them, and those that are made anew are kept after it.
pub(crate) fn tuples_of<R: Reads>(
    alloc: Global,
    hier: &Hier,
    reads: &mut R,
    version: u32,
    disjunct: &Disjunct,
    kept: &mut KeptLists,
    limit: u64,
) -> Result<Tuples, JoinFault>
    requires safe { IsSafe disjunct.now }
    requires variables { AreBelow disjunct.now.vars disjunct.now.probes }
    requires width { length disjunct.now.head < 2 ^ 32 }
    requires pin { (R.reader reads.old).pin ≡ Some version }
    ensures goes { GoesOn version hier.now (R.stands reads.old) (R.reader reads.old) kept.old
        (R.stands reads.new) (R.reader reads.new) kept.new }
    ensures found { FindsTuples (AreRead (R.stands reads.old) version hier.now kept.old)
        (λ axioms known. HasOverNames axioms known disjunct.now) (length disjunct.now.head) limit result }
{
    match which_has_fewer(alloc, hier, reads, disjunct.probes.as_slice(), kept)? {
        Some(first) => tuples_by_fewer(alloc, hier, reads, version, disjunct, first, kept, limit),
        None => tuples_by_all(alloc, hier, reads, version, disjunct, kept, limit),
    }
}

/// The tuples of a disjunct of two probes of one term, of which one has far fewer pairs than the other.
fn tuples_by_fewer<R: Reads>(
    alloc: Global,
    hier: &Hier,
    reads: &mut R,
    version: u32,
    disjunct: &Disjunct,
    first: Fewer,
    kept: &mut KeptLists,
    limit: u64,
) -> Result<Tuples, JoinFault>
    requires one_term { AreOfOneTerm disjunct.now.probes }
    requires safe { IsSafe disjunct.now }
    requires variables { AreBelow disjunct.now.vars disjunct.now.probes }
    requires width { length disjunct.now.head < 2 ^ 32 }
    requires pin { (R.reader reads.old).pin ≡ Some version }
    ensures goes { GoesOn version hier.now (R.stands reads.old) (R.reader reads.old) kept.old
        (R.stands reads.new) (R.reader reads.new) kept.new }
    ensures found { FindsTuples (AreRead (R.stands reads.old) version hier.now kept.old)
        (λ axioms known. HasOverNames axioms known disjunct.now) (length disjunct.now.head) limit result }
{
    let probes = disjunct.probes.as_slice();
    let lists = lists_by_fewer(alloc, hier, reads, version, probes, first, kept)?;
    join(alloc, disjunct, lists.as_slice(), limit)
}

/// The tuples of a disjunct by the whole lists of its probes.
fn tuples_by_all<R: Reads>(
    alloc: Global,
    hier: &Hier,
    reads: &mut R,
    version: u32,
    disjunct: &Disjunct,
    kept: &mut KeptLists,
    limit: u64,
) -> Result<Tuples, JoinFault>
    requires safe { IsSafe disjunct.now }
    requires variables { AreBelow disjunct.now.vars disjunct.now.probes }
    requires width { length disjunct.now.head < 2 ^ 32 }
    requires pin { (R.reader reads.old).pin ≡ Some version }
    ensures goes { GoesOn version hier.now (R.stands reads.old) (R.reader reads.old) kept.old
        (R.stands reads.new) (R.reader reads.new) kept.new }
    ensures found { FindsTuples (AreRead (R.stands reads.old) version hier.now kept.old)
        (λ axioms known. HasOverNames axioms known disjunct.now) (length disjunct.now.head) limit result }
{
    let probes = disjunct.probes.as_slice();
    let lists = lists_of(alloc, hier, reads, version, probes, kept)?;
    let tuples = tuples_over(alloc, disjunct, lists.as_slice(), limit);
    keep_all(alloc, probes, lists, kept)?;
    tuples
}

/// The tuples of a disjunct over the lists of its first probes, of all of them where none of the lists is empty.
fn tuples_over(
    alloc: Global,
    disjunct: &Disjunct,
    lists: &[List<Pair>],
    limit: u64,
) -> Result<Tuples, JoinFault>
    requires safe { IsSafe disjunct.now }
    requires variables { AreBelow disjunct.now.vars disjunct.now.probes }
    requires width { length disjunct.now.head < 2 ^ 32 }
    requires few { length lists.now ≤ length disjunct.now.probes }
    requires whole { Any (λ pairs. pairs ≡ []) lists.now ⊎ (length lists.now ≡ length disjunct.now.probes) }
    requires sorted { AreSorted lists.now }
    ensures { FindsTuples (λ axioms facts. AreFirst axioms facts disjunct.now.probes lists.now)
        (λ axioms known. HasOverNames axioms known disjunct.now) (length disjunct.now.head) limit result }
{
    if some_is_empty(lists) {
        return Ok(Tuples::new(alloc, disjunct.head.len() as u32));
    }
    join(alloc, disjunct, lists, limit)
}

/// Whether one of some lists is empty.
fn some_is_empty(lists: &[List<Pair>]) -> bool
    ensures { IsTrue result ↔ Any (λ pairs. pairs ≡ []) lists.now }
{
    for pairs in lists {
        if is_empty(pairs) {
            return true;
        }
    }
    false
}

fn is_empty(pairs: &List<Pair>) -> bool
    ensures { IsTrue result ↔ (pairs.now ≡ []) }
{
    pairs.len() == 0
}

/// One sorted list of pairs for each probe up to the first that has no pair: nothing is listed behind it.
fn lists_of<R: Reads>(
    alloc: Global,
    hier: &Hier,
    reads: &mut R,
    version: u32,
    probes: &[Probe],
    kept: &mut KeptLists,
) -> Result<List<List<Pair>>, NoMemory>
    requires pin { (R.reader reads.old).pin ≡ Some version }
    ensures goes { GoesOn version hier.now (R.stands reads.old) (R.reader reads.old) kept.old
        (R.stands reads.new) (R.reader reads.new) kept.new }
    ensures few { IfOk result (λ lists. length lists ≤ length probes.now) }
    ensures whole { IfOk result (λ lists.
        Any (λ pairs. pairs ≡ []) lists ⊎ (length lists ≡ length probes.now)) }
    ensures lists { IfOk result (AreFirstLists (AreRead (R.stands reads.old) version hier.now kept.old) probes.now) }
{
    let mut lists = List::new(alloc);
    for probe in probes {
        let pairs = shared_list(
            alloc,
            hier,
            reads,
            version,
            probe,
            probes,
            lists.as_slice(),
            kept,
        )?;
        let none = is_empty(&pairs);
        lists.push(pairs)?;
        if none {
            return Ok(lists);
        }
    }
    Ok(lists)
}

/// The sorted list of the pairs of a probe, with the lists of some probes before it: a copy of the list of one of these
/// that asks the same, the one that is kept, or a new one.
fn shared_list<R: Reads>(
    alloc: Global,
    hier: &Hier,
    reads: &mut R,
    version: u32,
    probe: &Probe,
    before: &[Probe],
    lists: &[List<Pair>],
    kept: &mut KeptLists,
) -> Result<List<Pair>, NoMemory>
    requires few { length lists.now ≤ length before.now }
    requires sorted { AreSorted lists.now }
    requires pin { (R.reader reads.old).pin ≡ Some version }
    ensures goes { GoesOn version hier.now (R.stands reads.old) (R.reader reads.old) kept.old
        (R.stands reads.new) (R.reader reads.new) kept.new }
    ensures list { IfOk result (IsListOf (λ axioms facts. AreFirst axioms facts before.now lists.now
        × AreRead (R.stands reads.old) version hier.now kept.old axioms facts) probe.now) }
{
    if let Some(pairs) = earlier(before, lists, probe) {
        return Ok(copy_of(alloc, pairs)?);
    }
    kept_or_made(alloc, hier, reads, version, probe, kept)
}

/// The sorted list of the pairs of a probe: the one that is kept, or a new one.
pub(crate) fn kept_or_made<R: Reads>(
    alloc: Global,
    hier: &Hier,
    reads: &mut R,
    version: u32,
    probe: &Probe,
    kept: &mut KeptLists,
) -> Result<List<Pair>, NoMemory>
    requires pin { (R.reader reads.old).pin ≡ Some version }
    ensures goes { GoesOn version hier.now (R.stands reads.old) (R.reader reads.old) kept.old
        (R.stands reads.new) (R.reader reads.new) kept.new }
    ensures list { IfOk result (IsListOf (AreRead (R.stands reads.old) version hier.now kept.old) probe.now) }
{
    match kept.take(probe) {
        Some(pairs) => Ok(pairs),
        None => list_of(alloc, hier, reads, version, probe),
    }
}

/// The sorted list of the pairs of a probe.
fn list_of<R: Reads>(
    alloc: Global,
    hier: &Hier,
    reads: &mut R,
    version: u32,
    probe: &Probe,
) -> Result<List<Pair>, NoMemory>
    requires pin { (R.reader reads.old).pin ≡ Some version }
    ensures fetched { HasFetched (R.stands reads.old) (R.reader reads.old) (R.stands reads.new) (R.reader reads.new) }
    ensures list { IfOk result (IsListOf (λ axioms facts. HasFacts (R.stands reads.old) version facts
        × AreBehind hier.now axioms facts) probe.now) }
{
    let below = below_of(alloc, hier, probe)?;
    pairs_below(alloc, reads, version, below)
}

/// The predicates below the basic concepts or the role of a probe.
pub(crate) fn below_of(alloc: Global, hier: &Hier, probe: &Probe) -> Result<Below, NoMemory>
    ensures { IfOk result (λ below. (axioms : Items Axiom) → IsHierarchyOf hier.now axioms →
        AreBelowProbe axioms hier.now.predicates probe.now below) }
{
    match probe {
        Probe::AnyOf { basics, .. } => hier.predicates_below(alloc, basics.as_slice()),
        Probe::Joined { role, .. } => hier.roles_below(alloc, Role::named(*role)),
    }
}
