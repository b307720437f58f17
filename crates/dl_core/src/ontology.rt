// The ontology after the edits of a commit.
ghost use Rattle.std.specs.Prelude.{IfOk};
ghost use Rattle.dl_epoch.specs.Known.{IsSignature};
ghost use Rattle.dl_core.specs.Committing.{IsEdited};

use crate::opening::{same_axioms, same_signature};
use crate::{Edit, Root};
use dl_edits::{edited_axioms, edited_signature};
use dl_epoch::Epoch;
use dl_terms::{Axiom, List, NoMemory, Signature};
use std::alloc::Global;

/// Axioms and a signature after edits, and whether they are others than before: then an epoch opens.
#[derive(Drop)]
pub(crate) struct Ontology {
    pub(crate) axioms: List<Axiom>,
    pub(crate) signature: Signature,
    pub(crate) opens: bool,
}

/// What edits make of the ontology of a root. It fails only for want of memory.
pub(crate) fn edited(alloc: Global, root: &Root, edits: &[Edit]) -> Result<Ontology, NoMemory>
    ensures edited { IfOk result (IsEdited root.now edits.now) }
    ensures signature { IfOk result (λ o. IsSignature o.signature) }
{
    let current = root.current();
    let epoch: &Epoch = &current.epoch;
    let id = epoch.id();
    let axioms = edited_axioms(alloc, epoch.axioms(), edits)?;
    let signature = edited_signature(alloc, epoch.signature(), edits)?;
    let same = same_axioms(epoch.axioms(), axioms.as_slice())
        && same_signature(epoch.signature(), &signature);
    Ok(Ontology {
        axioms,
        signature,
        opens: !same,
    })
}
