// Why a commit is refused.
ghost use Rattle.std.specs.Prelude.{◌≡◌, List, length, IfOk};
ghost use Rattle.dl_epoch.specs.Known.{IsSignature};
ghost use Rattle.dl_core.specs.Next.{commit_refused};
ghost use Rattle.dl_core.specs.Committing.{IsEdited, added, unfit};
ghost use Rattle.dl_event.specs.declared.event.Edit.{Edit as AnyEdit};

use crate::first_root::{MAX_ROWS, MAX_WEIGHT};
use crate::ontology::Ontology;
use crate::{Refusal, Root};
use dl_edits::predicate_count;
use dl_hier::MAX_PREDICATES;
use dl_normal::weight;
use dl_terms::NoMemory;
use std::alloc::Global;

/// How many epochs are kept at most.
const MAX_EPOCHS: usize = 64;

/// Why a commit is refused that leads to an ontology and brings so many new facts, or `None` where it is accepted. It
/// fails only for want of memory.
pub(crate) fn refused(
    alloc: Global,
    root: &Root,
    edited: &Ontology,
    new: u64,
) -> Result<Option<Refusal>, NoMemory>
    requires { IsSignature edited.now.signature }
    ensures { (edits : List AnyEdit) → IsEdited root.now edits edited.now → new ≡ length (added root.now edits)
        → IfOk result (λ why. why ≡ commit_refused root.now edits) }
{
    let weight = weight(edited.axioms.as_slice());
    if weight > MAX_WEIGHT {
        return Ok(Some(Refusal::TooManyAxioms { weight }));
    }
    let count = predicate_count(alloc, edited.axioms.as_slice(), &edited.signature)?;
    if count > MAX_PREDICATES as u64 {
        return Ok(Some(Refusal::TooManyPredicates { count }));
    }
    Ok(unfit(root, edited.opens, new))
}

/// Why a root has no room for one more epoch, if one opens, and for new rows.
fn unfit(root: &Root, opens: bool, new: u64) -> Option<Refusal>
    ensures { result ≡ unfit root.now opens new }
{
    let book = root.book();
    let kept = book.epochs.entries().len();
    if opens && kept >= MAX_EPOCHS {
        return Some(Refusal::TooManyEpochs { kept: kept as u32 });
    }
    let kept = book.rows;
    if new > MAX_ROWS - kept {
        return Some(Refusal::Full { kept, new });
    }
    None
}
