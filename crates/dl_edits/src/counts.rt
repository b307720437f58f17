// Numbers that the limits speak of.
ghost use Rattle.std.specs.Prelude.{◌≡◌, ◌+◌, ◌≤◌, ◌^◌, length, IfOk};
ghost use Rattle.std.specs.List.Sorted.{IsStrictlyIncreasing};
ghost use Rattle.dl_normal.specs.Weight.{total_weight};
ghost use Rattle.dl_epoch.specs.Known.{IsSignature, max_weight};
ghost use Rattle.dl_edits.specs.Names.{predicates};

use dl_normal::auxiliaries;
use dl_terms::{Axiom, NoMemory, Signature};
use std::alloc::Global;

/// How many predicates there are: the names of a signature, and the auxiliary roles of axioms that aren't too heavy.
pub fn predicate_count(
    alloc: Global,
    axioms: &[Axiom],
    signature: &Signature,
) -> Result<u64, NoMemory>
    requires light { total_weight axioms.now ≤ max_weight }
    requires signature { IsSignature signature.now }
    ensures { IfOk result (λ count. count ≡ predicates axioms.now signature.now) }
{
    let names = name_count(signature.classes.as_slice(), signature.roles.as_slice());
    Ok(names + auxiliaries(alloc, axioms)?)
}

/// How many names two lists have together that ascend strictly.
fn name_count(classes: &[u32], roles: &[u32]) -> u64
    requires classes { IsStrictlyIncreasing classes.now }
    requires roles { IsStrictlyIncreasing roles.now }
    ensures count { result ≡ length classes.now + length roles.now }
    ensures few { result ≤ 2 ^ 33 }
{
    classes.len() as u64 + roles.len() as u64
}
