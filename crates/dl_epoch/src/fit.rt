// The test of what an epoch is built from.
ghost use Rattle.std.specs.Prelude.{◌↔◌, ◌≤◌, IfOk, IsTrue};
ghost use Rattle.std.specs.List.Sorted.{IsStrictlyIncreasing};
ghost use Rattle.dl_normal.specs.Weight.{total_weight};
ghost use Rattle.dl_epoch.specs.Known.{IsSignature, ArePredicatesFew, max_weight};

use dl_hier::MAX_PREDICATES;
use dl_normal::{auxiliaries, weight};
use dl_terms::{Axiom, NoMemory, Signature};
use std::alloc::Global;

/// The most that the axioms of an epoch may weigh.
pub const MAX_WEIGHT: u64 = 65_536;

/// Whether the size of these and the order of the names are as `Epoch::build` asks: each list of the signature ascends
/// strictly, the axioms weigh at most `MAX_WEIGHT`, and the names of the signature and the auxiliary roles of the
/// axioms are at most `MAX_PREDICATES` of `dl_hier`. Fails only for want of memory.
pub fn fits(alloc: Global, axioms: &[Axiom], signature: &Signature) -> Result<bool, NoMemory>
    ensures { IfOk result (λ fit. IsTrue fit ↔ (IsSignature signature.now
        × (total_weight axioms.now ≤ max_weight) × ArePredicatesFew signature.now axioms.now)) }
{
    if !ascend(signature.classes.as_slice()) || !ascend(signature.roles.as_slice()) {
        return Ok(false);
    }
    if weight(axioms) > MAX_WEIGHT {
        return Ok(false);
    }
    are_few(alloc, axioms, signature)
}

/// Whether names ascend strictly.
fn ascend(names: &[u32]) -> bool
    ensures { IsTrue result ↔ IsStrictlyIncreasing names.now }
{
    for (i, name) in names.iter().enumerate() {
        if i > 0 && *name <= names[i - 1] {
            return false;
        }
    }
    true
}

/// Whether the names of a signature and the auxiliary roles of axioms are few.
fn are_few(alloc: Global, axioms: &[Axiom], signature: &Signature) -> Result<bool, NoMemory>
    ensures { IfOk result (λ few. IsTrue few ↔ ArePredicatesFew signature.now axioms.now) }
{
    let auxiliaries = auxiliaries(alloc, axioms)?;
    let classes = signature.classes.len() as u64;
    let roles = signature.roles.len() as u64;
    Ok(classes.saturating_add(roles).saturating_add(auxiliaries) <= MAX_PREDICATES as u64)
}
