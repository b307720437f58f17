// A query asked of a reader.
ghost use Rattle.std.specs.Prelude.{◌≡◌, ◌↔◌, ◌≤◌, ℕ, List as Items, Option as Maybe, IfOk};
ghost use Rattle.std.specs.Arc.{arc_value};
ghost use Rattle.std.specs.List.{All};
ghost use Rattle.dl_terms.specs.Answers.{IsCertain};
ghost use Rattle.dl_terms.specs.Broken.{NothingIsBroken};
ghost use Rattle.dl_terms.specs.Queries.{IsWellFormed};
ghost use Rattle.dl_terms.specs.declared.axiom.Axiom.{Axiom};
ghost use Rattle.dl_terms.specs.declared.axiom.Fact.{Fact};
ghost use Rattle.dl_terms.specs.declared.query.Query.{Query};
ghost use Rattle.dl_normal.specs.Weight.{total_weight};
ghost use Rattle.dl_epoch.specs.Known.{max_weight};
ghost use Rattle.dl_epoch.specs.Frozen.{IsFrozen};
ghost use Rattle.dl_core.specs.History.{Load, Entry, axioms_at, facts_at};
ghost use Rattle.dl_core.specs.Root.{IsLoad};
ghost use Rattle.dl_core.specs.Next.{Numbering, IsNumbering};
ghost use Rattle.dl_core.specs.Loading.{IsFactIn};
ghost use Rattle.dl_answer.specs.Readers.{Covers, HasFacts, HasFetched};
ghost use Rattle.dl_answer.specs.Replies.{RepliesTo, GivesTuples};
ghost use Rattle.dl_answer.specs.Verdicts.{fault_of};

use crate::broken::{Verdict, first_broken};
use crate::certain::certain;
use crate::slots::KeptLists;
use dl_core::{Answer, AskFault, Reads};
use dl_epoch::Epoch;
use dl_join::JoinFault;
use dl_terms::{NoMemory, Query, Tuples};
use std::alloc::{AllocError, Global};
use std::sync::Arc;

/// The defined reply to a query at the version that a reader has pinned: the first broken axiom, or else the certain
/// answers. `NoPin` comes exactly where the reader has no pin. `TooMany` comes exactly where no axiom is broken and
/// there are more certain answers than the limit. `nothing` is the number of `owl:Nothing`, or None where that is no
/// name.
///
/// Shard 0 is fetched first, for the book alone. Then for each probe whose list is made every shard is fetched once, in
/// order. So the reader moves on, and its pin stays.
pub fn ask<R: Reads>(
    alloc: Global,
    reads: &mut R,
    query: &Query,
    limit: u64,
    nothing: Option<u32>,
) -> Result<Answer, AskFault>
    requires { IsWellFormed query.now }
    ensures reply { (numbering : Numbering) (l : Load) (seen : Items Entry) (version : ℕ) → IsNumbering numbering →
        IsLoad l → R.stands reads.old numbering l seen → (R.reader reads.old).pin ≡ Some version →
        RepliesTo (axioms_at l seen version) (facts_at l seen version) nothing query.now limit version result }
    ensures no_pin { (result ≡ Err AskFault.NoPin) ↔ ((R.reader reads.old).pin ≡ None) }
    ensures fetched { HasFetched (R.stands reads.old) (R.reader reads.old) (R.stands reads.new) (R.reader reads.new) }
{
    let Some(pin) = reads.pin() else {
        return Err(AskFault::NoPin);
    };
    // There is a first shard.
    let _shards = reads.shards();
    reads.fetch(0);
    let epoch = pinned_epoch(reads, pin.version)?;
    reply(alloc, &*epoch, reads, pin.version, query, limit, nothing)
}

/// The epoch that covers the version that is pinned, shared, so that the reader may move on.
fn pinned_epoch<R: Reads>(reads: &R, version: u32) -> Result<Arc<Epoch, Global>, AllocError>
    requires pin { (R.reader reads.now).pin ≡ Some version }
    ensures covers { IfOk result (λ epoch. Covers (R.reader reads.now).root version (arc_value epoch)) }
    ensures frozen { IfOk result (λ epoch. IsFrozen (arc_value epoch)) }
    ensures weight { IfOk result (λ epoch. total_weight (arc_value epoch).axioms ≤ max_weight) }
{
    // The pin is one of the root's.
    let _pin = reads.pin();
    let book = reads.book();
    let entries = book.epochs.entries();
    let place = book.epochs.covering(version);
    Arc::try_clone(&entries[place as usize].epoch)
}

/// The defined reply by the epoch that covers the version that is pinned.
fn reply<R: Reads>(
    alloc: Global,
    epoch: &Epoch,
    reads: &mut R,
    version: u32,
    query: &Query,
    limit: u64,
    nothing: Option<u32>,
) -> Result<Answer, AskFault>
    requires query { IsWellFormed query.now }
    requires frozen { IsFrozen epoch.now }
    requires weight { total_weight epoch.now.axioms ≤ max_weight }
    requires pin { (R.reader reads.old).pin ≡ Some version }
    ensures reply { (facts : Items Fact) → HasFacts (R.stands reads.old) version facts →
        All (IsFactIn epoch.now.signature) facts →
        RepliesTo epoch.now.axioms facts nothing query.now limit version result }
    ensures pinned { result ≡ Err AskFault.NoPin → ⊥ }
    ensures fetched { HasFetched (R.stands reads.old) (R.reader reads.old) (R.stands reads.new) (R.reader reads.new) }
{
    let hier = epoch.hier();
    let axioms = epoch.axioms();
    let mut kept = KeptLists::new(alloc, reads.book().rows as usize)?;
    let verdict = first_broken(alloc, hier, reads, version, axioms, &mut kept, nothing)?;
    match verdict {
        Verdict::Broken(axiom) => Ok(Answer::Inconsistent { version, axiom }),
        Verdict::Sound => told(
            certain(alloc, hier, reads, version, query, &mut kept, limit),
            version,
        ),
    }
}

/// What certain answers are told as where nothing is broken.
fn told(tuples: Result<Tuples, JoinFault>, version: u32) -> Result<Answer, AskFault>
    ensures reply { (axioms : Items Axiom) (facts : Items Fact) (nothing : Maybe ℕ) (q : Query) (limit : ℕ) →
        NothingIsBroken axioms facts nothing → GivesTuples (IsCertain axioms facts q) limit tuples →
        RepliesTo axioms facts nothing q limit version result }
    ensures pinned { result ≡ Err AskFault.NoPin → ⊥ }
{
    match tuples {
        Ok(tuples) => Ok(Answer::Found { version, tuples }),
        Err(fault) => Err(fault_of(fault, version)),
    }
}

/// What a fault of the search for tuples means.
fn fault_of(fault: JoinFault, version: u32) -> AskFault
    ensures fault { result ≡ fault_of version fault }
    ensures pinned { result ≡ AskFault.NoPin → ⊥ }
{
    match fault {
        JoinFault::TooMany => AskFault::TooMany { version },
        JoinFault::NoMemory => AskFault::NoMemory,
    }
}
