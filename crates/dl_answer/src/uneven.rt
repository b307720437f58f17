// Two probes of one term of which one has far fewer pairs: those of the other are looked for at the names of that one.
ghost use Rattle.std.specs.Prelude.{◌≡◌, List as Items, [], ◌∷◌, IfOk, IfSome};
ghost use Rattle.std.specs.Bool.{OnTrue};
ghost use Rattle.dl_terms.specs.declared.axiom.Axiom.{Axiom};
ghost use Rattle.dl_terms.specs.declared.axiom.Fact.{Fact};
ghost use Rattle.dl_answer.specs.Readers.{HasFacts, HasFetched};
ghost use Rattle.dl_answer.specs.Probes.{AreBehind, IsListOf};
ghost use Rattle.dl_answer.specs.Kept.{AreKept};
ghost use Rattle.dl_answer.specs.Sifted.{IsAt, AreOfOneTerm, IsListAmong, AreTogether};
ghost use Rattle.dl_answer.specs.Searches.{AreRead, GoesOn};

use crate::kept::copy_of;
use crate::pairs::pairs_sifted;
use crate::probes::{below_of, kept_or_made};
use crate::sizes::size_of;
use crate::slots::KeptLists;
use dl_core::Reads;
use dl_hier::Hier;
use dl_scan::Sieve;
use dl_terms::{List, NoMemory, Pair, Probe, Term};
use std::alloc::Global;

/// How many times as many pairs are far more.
const FAR: usize = 8;

/// Which of two probes has far fewer pairs than the other one.
#[derive(Clone, Copy)]
pub(crate) enum Fewer {
    First,
    Second,
}

/// Which of some probes has far fewer pairs than the other one, where they are two of one term, the list of that other
/// one isn't kept, and it isn't asked for so often that it is to be made.
pub(crate) fn which_has_fewer<R: Reads>(
    alloc: Global,
    hier: &Hier,
    reads: &R,
    probes: &[Probe],
    kept: &mut KeptLists,
) -> Result<Option<Fewer>, NoMemory>
    ensures kept { (axioms : Items Axiom) (facts : Items Fact) → AreKept axioms facts kept.old →
        AreKept axioms facts kept.new }
    ensures one_term { IfOk result (λ found. IfSome found (λ _. AreOfOneTerm probes.now)) }
{
    if !are_of_one_term(probes) {
        return Ok(None);
    }
    let one = size_of(alloc, hier, reads, &probes[0], kept)?;
    let two = size_of(alloc, hier, reads, &probes[1], kept)?;
    if one <= two / FAR {
        return Ok(is_to_sift(&probes[1], one, kept).then_some(Fewer::First));
    }
    if two <= one / FAR {
        return Ok(is_to_sift(&probes[0], two, kept).then_some(Fewer::Second));
    }
    Ok(None)
}

/// Whether the pairs of a probe are to be looked for at some names alone.
fn is_to_sift(probe: &Probe, names: usize, kept: &mut KeptLists) -> bool
    ensures { (axioms : Items Axiom) (facts : Items Fact) → AreKept axioms facts kept.old →
        AreKept axioms facts kept.new }
{
    match kept.size(probe) {
        Some(_) => false,
        None => names == 0 || !kept.is_due(probe),
    }
}

/// Whether some probes are two that ask for basic concepts at one term.
fn are_of_one_term(probes: &[Probe]) -> bool
    ensures { OnTrue result (AreOfOneTerm probes.now) }
{
    if probes.len() != 2 {
        return false;
    }
    match &probes[0] {
        Probe::AnyOf { at, .. } => is_at(&probes[1], *at),
        Probe::Joined { .. } => false,
    }
}

/// Whether a probe asks for basic concepts at a term.
fn is_at(probe: &Probe, term: Term) -> bool
    ensures { OnTrue result (IsAt term probe.now) }
{
    match probe {
        Probe::AnyOf { at, .. } => *at == term,
        Probe::Joined { .. } => false,
    }
}

/// Lists of two probes of one term, of which one has far fewer pairs: its whole list, and of the other one what is
/// needed beside it.
pub(crate) fn lists_by_fewer<R: Reads>(
    alloc: Global,
    hier: &Hier,
    reads: &mut R,
    version: u32,
    probes: &[Probe],
    fewer: Fewer,
    kept: &mut KeptLists,
) -> Result<List<List<Pair>>, NoMemory>
    requires one_term { AreOfOneTerm probes.now }
    requires pin { (R.reader reads.old).pin ≡ Some version }
    ensures goes { GoesOn version hier.now (R.stands reads.old) (R.reader reads.old) kept.old
        (R.stands reads.new) (R.reader reads.new) kept.new }
    ensures lists { IfOk result (AreTogether (AreRead (R.stands reads.old) version hier.now kept.old) probes.now) }
{
    match fewer {
        Fewer::First => {
            let (few, many) = few_and_many(
                alloc, hier, reads, version, &probes[0], &probes[1], kept,
            )?;
            two_lists(alloc, few, many)
        }
        Fewer::Second => {
            let (few, many) = few_and_many(
                alloc, hier, reads, version, &probes[1], &probes[0], kept,
            )?;
            two_lists(alloc, many, few)
        }
    }
}

/// The list of the pairs of a probe, and of those of another one what is needed beside it.
fn few_and_many<R: Reads>(
    alloc: Global,
    hier: &Hier,
    reads: &mut R,
    version: u32,
    probe: &Probe,
    other: &Probe,
    kept: &mut KeptLists,
) -> Result<(List<Pair>, List<Pair>), NoMemory>
    requires pin { (R.reader reads.old).pin ≡ Some version }
    ensures goes { GoesOn version hier.now (R.stands reads.old) (R.reader reads.old) kept.old
        (R.stands reads.new) (R.reader reads.new) kept.new }
    ensures few { IfOk result (λ lists. IsListOf (AreRead (R.stands reads.old) version hier.now kept.old)
        probe.now lists.0) }
    ensures many { IfOk result (λ lists. IsListAmong (AreRead (R.stands reads.old) version hier.now kept.old)
        other.now lists.0 lists.1) }
{
    let few = list_kept(alloc, hier, reads, version, probe, kept)?;
    let many = list_among(alloc, hier, reads, version, other, few.as_slice())?;
    Ok((few, many))
}

/// The sorted list of the pairs of a probe, of which a copy is kept.
fn list_kept<R: Reads>(
    alloc: Global,
    hier: &Hier,
    reads: &mut R,
    version: u32,
    probe: &Probe,
    kept: &mut KeptLists,
) -> Result<List<Pair>, NoMemory>
    requires pin { (R.reader reads.old).pin ≡ Some version }
    ensures goes { GoesOn version hier.now (R.stands reads.old) (R.reader reads.old) kept.old
        (R.stands reads.new) (R.reader reads.new) kept.new }
    ensures list { IfOk result (IsListOf (AreRead (R.stands reads.old) version hier.now kept.old) probe.now) }
{
    let pairs = kept_or_made(alloc, hier, reads, version, probe, kept)?;
    let copy = copy_of(alloc, pairs.as_slice())?;
    kept.keep(alloc, probe, copy)?;
    Ok(pairs)
}

/// A sorted list of pairs of a probe, with all whose first name is first in a pair of some others. Where there are no
/// others, nothing is looked at.
fn list_among<R: Reads>(
    alloc: Global,
    hier: &Hier,
    reads: &mut R,
    version: u32,
    probe: &Probe,
    others: &[Pair],
) -> Result<List<Pair>, NoMemory>
    requires pin { (R.reader reads.old).pin ≡ Some version }
    ensures fetched { HasFetched (R.stands reads.old) (R.reader reads.old) (R.stands reads.new) (R.reader reads.new) }
    ensures list { IfOk result (IsListAmong (λ axioms facts. HasFacts (R.stands reads.old) version facts
        × AreBehind hier.now axioms facts) probe.now others.now) }
{
    if others.len() == 0 {
        return Ok(List::new(alloc));
    }
    let below = below_of(alloc, hier, probe)?;
    let sieve = Sieve::of(alloc, others)?;
    pairs_sifted(alloc, reads, version, below, &sieve)
}

/// A list of two lists.
fn two_lists(alloc: Global, one: List<Pair>, two: List<Pair>) -> Result<List<List<Pair>>, NoMemory>
    ensures { IfOk result (λ lists. lists ≡ one ∷ two ∷ []) }
{
    let mut lists = List::new(alloc);
    lists.push(one)?;
    lists.push(two)?;
    Ok(lists)
}
