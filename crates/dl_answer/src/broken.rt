// The first broken axiom: each negative of the normal form is asked as a query without head, in order.
ghost use Rattle.std.specs.Prelude.{◌≡◌, ◌<◌, ◌^◌, ◌↔◌, List as Items, length, IsTrue, IfOk, IfSome};
ghost use Rattle.std.specs.List.{Contains};
ghost use Rattle.dl_terms.specs.Broken.{IsMet};
ghost use Rattle.dl_terms.specs.declared.axiom.Axiom.{Axiom};
ghost use Rattle.dl_terms.specs.declared.axiom.Fact.{Fact};
ghost use Rattle.dl_answer.specs.Searches.{AreRead, GoesOn};
ghost use Rattle.dl_answer.specs.Verdicts.{FindsMet, HasMember, Finds};

use crate::certain::certain;
use crate::slots::KeptLists;
use dl_core::Reads;
use dl_deny::{copy_of, query_of};
use dl_hier::Hier;
use dl_join::JoinFault;
use dl_normal::normal;
use dl_terms::{Axiom, Basic, Negative, NoMemory};
use std::alloc::Global;

/// What facts break of axioms.
#[derive(Drop)]
pub(crate) enum Verdict {
    /// The first broken axiom. None stands for `owl:Nothing`.
    Broken(Option<Axiom>),
    /// Nothing is broken.
    Sound,
}

/// The first broken axiom, or that nothing is broken. Only the broken axiom is copied.
pub(crate) fn first_broken<R: Reads>(
    alloc: Global,
    hier: &Hier,
    reads: &mut R,
    version: u32,
    axioms: &[Axiom],
    kept: &mut KeptLists,
    nothing: Option<u32>,
) -> Result<Verdict, NoMemory>
    requires count { length axioms.now < 2 ^ 32 }
    requires pin { (R.reader reads.old).pin ≡ Some version }
    ensures goes { GoesOn version hier.now (R.stands reads.old) (R.reader reads.old) kept.old
        (R.stands reads.new) (R.reader reads.new) kept.new }
    ensures verdict { IfOk result (λ verdict. (known : Items Fact) →
        AreRead (R.stands reads.old) version hier.now kept.old axioms.now known →
        Finds axioms.now known nothing verdict) }
{
    let normal = normal(alloc, axioms)?;
    if let Some(index) = first_met(
        alloc,
        hier,
        reads,
        version,
        kept,
        normal.negatives.as_slice(),
    )? {
        let copy = copy_of(alloc, &axioms[index as usize])?;
        return Ok(Verdict::Broken(Some(copy)));
    }
    if has_member(alloc, hier, reads, version, kept, nothing)? {
        return Ok(Verdict::Broken(None));
    }
    Ok(Verdict::Sound)
}

/// The index that stands beside the first of some negatives that is met, or None where none is.
fn first_met<R: Reads>(
    alloc: Global,
    hier: &Hier,
    reads: &mut R,
    version: u32,
    kept: &mut KeptLists,
    negatives: &[(u32, Negative)],
) -> Result<Option<u32>, NoMemory>
    requires pin { (R.reader reads.old).pin ≡ Some version }
    ensures goes { GoesOn version hier.now (R.stands reads.old) (R.reader reads.old) kept.old
        (R.stands reads.new) (R.reader reads.new) kept.new }
    ensures there { IfOk result (λ found.
        IfSome found (λ index. (n : Negative) × Contains negatives.now (index, n))) }
    ensures first { IfOk result (λ found. (axioms : Items Axiom) (known : Items Fact) →
        AreRead (R.stands reads.old) version hier.now kept.old axioms known →
        FindsMet (IsMet axioms known) negatives.now found) }
{
    for (index, negative) in negatives {
        if is_met(alloc, hier, reads, version, kept, *negative)? {
            return Ok(Some(*index));
        }
    }
    Ok(None)
}

/// Whether `owl:Nothing`, where it is a name, has a member.
fn has_member<R: Reads>(
    alloc: Global,
    hier: &Hier,
    reads: &mut R,
    version: u32,
    kept: &mut KeptLists,
    nothing: Option<u32>,
) -> Result<bool, NoMemory>
    requires pin { (R.reader reads.old).pin ≡ Some version }
    ensures goes { GoesOn version hier.now (R.stands reads.old) (R.reader reads.old) kept.old
        (R.stands reads.new) (R.reader reads.new) kept.new }
    ensures member { IfOk result (λ has. (axioms : Items Axiom) (known : Items Fact) →
        AreRead (R.stands reads.old) version hier.now kept.old axioms known →
        IsTrue has ↔ HasMember axioms known nothing) }
{
    match nothing {
        Some(class) => {
            let class = Basic::Class(class);
            is_met(
                alloc,
                hier,
                reads,
                version,
                kept,
                Negative::Basics(class, class),
            )
        }
        None => Ok(false),
    }
}

/// Whether something is what a negative excludes, be it a name or unnamed. The search ends at the first match.
fn is_met<R: Reads>(
    alloc: Global,
    hier: &Hier,
    reads: &mut R,
    version: u32,
    kept: &mut KeptLists,
    negative: Negative,
) -> Result<bool, NoMemory>
    requires pin { (R.reader reads.old).pin ≡ Some version }
    ensures goes { GoesOn version hier.now (R.stands reads.old) (R.reader reads.old) kept.old
        (R.stands reads.new) (R.reader reads.new) kept.new }
    ensures met { IfOk result (λ met. (axioms : Items Axiom) (known : Items Fact) →
        AreRead (R.stands reads.old) version hier.now kept.old axioms known →
        IsTrue met ↔ IsMet axioms known negative) }
{
    let query = query_of(alloc, negative)?;
    match certain(alloc, hier, reads, version, &query, kept, 1) {
        Ok(tuples) => Ok(tuples.len() > 0),
        Err(JoinFault::TooMany) => Ok(true),
        Err(JoinFault::NoMemory) => Err(NoMemory),
    }
}
