// The join of the lists of a disjunct's probes.
ghost use Rattle.std.specs.Prelude.{◌≡◌, ℕ, ◌<◌, ◌≤◌, ◌^◌, false, [], length, slice_index_or, IfOk, IsTrue};
ghost use Rattle.std.specs.List.{All};
ghost use Rattle.dl_terms.specs.declared.query.Probe.{Probe};
ghost use Rattle.dl_join.specs.declared.need.Column.TheVariants.{First};
ghost use Rattle.dl_join.specs.Needs.{AreAscending};
ghost use Rattle.dl_join.specs.Probing.{AreKept, AreNeedsOf, IsClosed};
ghost use Rattle.dl_join.specs.Disjuncts.{IsTuple, IsSafe, AreSorted, ProbeHolds, AllHold};
ghost use Rattle.dl_join.specs.Tuples.{AreExactly, AreMoreThan};

use crate::JoinFault;
use crate::gather::Gathered;
use crate::need::Need;
use crate::probe::{fails, kept, need_of};
use crate::reduced::reduced;
use dl_terms::{Disjunct, List, Pair, Probe, Tuples};
use std::alloc::{AllocError, Global};

/// The distinct tuples of a disjunct over one sorted list of pairs for each of its probes, ascending: those that
/// names for its variables give to its head while each probe holds over its list. An `AnyOf` holds of the names that
/// are first in a pair, and a `Joined` of the two names of a pair. `TooMany` comes exactly where they are more than
/// the limit.
pub fn join(
    alloc: Global,
    disjunct: &Disjunct,
    lists: &[List<Pair>],
    limit: u64,
) -> Result<Tuples, JoinFault>
    requires lists { length lists.now ≡ length disjunct.now.probes }
    requires sorted { AreSorted lists.now }
    requires safe { IsSafe disjunct.now }
    requires width { length disjunct.now.head < 2 ^ 32 }
    ensures tuples { IfOk result (λ tuples. AreExactly (IsTuple disjunct.now lists.now) tuples.tuples) }
    ensures width { IfOk result (λ tuples. tuples.width ≡ length disjunct.now.head) }
    ensures within { IfOk result (λ tuples. length tuples.tuples ≤ limit) }
    ensures many { result ≡ Err JoinFault.TooMany → AreMoreThan limit (IsTuple disjunct.now lists.now) }
{
    let probes = disjunct.probes.as_slice();
    let head = disjunct.head.as_slice();
    let mut gathered = Gathered::new(alloc, head.len() as u32, limit);
    if some_fails(probes, lists) {
        return gathered.finish();
    }
    let made = kept_lists(alloc, probes, lists)?;
    let needs = needs_of(alloc, probes, lists, made.as_slice())?;
    reduced(alloc, needs.as_slice(), head, needs.len(), &mut gathered)?;
    gathered.finish()
}

/// True where a probe without variables doesn't hold.
fn some_fails(probes: &[Probe], lists: &[List<Pair>]) -> bool
    requires lists { length lists.now ≡ length probes.now }
    requires ascending { All (AreAscending First) lists.now }
    ensures fails { IsTrue result → (names : ℕ → ℕ) → AllHold names probes.now lists.now → ⊥ }
    ensures holds { result ≡ false → (k : ℕ) (p : Probe) → k < length probes.now
        → IsClosed (slice_index_or probes.now k p)
        → (names : ℕ → ℕ) → ProbeHolds names (slice_index_or lists.now k []) (slice_index_or probes.now k p) }
{
    for (k, probe) in probes.iter().enumerate() {
        if fails(probe, lists[k].as_slice()) {
            return true;
        }
    }
    false
}

/// The pairs kept of each probe.
fn kept_lists(
    alloc: Global,
    probes: &[Probe],
    lists: &[List<Pair>],
) -> Result<Vec<List<Pair>>, AllocError>
    requires { length lists.now ≡ length probes.now }
    ensures { IfOk result (λ made. AreKept probes.now lists.now made.items) }
{
    let mut made = Vec::new(alloc);
    for (k, probe) in probes.iter().enumerate() {
        made.push(kept(alloc, probe, lists[k].as_slice())?)?;
    }
    Ok(made)
}

/// The needs of the probes that have variables.
fn needs_of<'a>(
    alloc: Global,
    probes: &[Probe],
    lists: &'a [List<Pair>],
    made: &'a [List<Pair>],
) -> Result<Vec<Need<'a>>, AllocError>
    requires lists { length lists.now ≡ length probes.now }
    requires ascending { All (AreAscending First) lists.now }
    requires made { AreKept probes.now lists.now made.now }
    ensures { IfOk result (λ needs. AreNeedsOf probes.now lists.now needs.items) }
{
    let mut needs = Vec::new(alloc);
    for (k, probe) in probes.iter().enumerate() {
        if let Some(need) = need_of(probe, lists[k].as_slice(), made[k].as_slice()) {
            needs.push(need)?;
        }
    }
    Ok(needs)
}
