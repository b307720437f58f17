// A commit: accepted or refused.
ghost use Rattle.std.specs.Prelude.{◌≡◌, ℕ, All, IfOk};
ghost use Rattle.dl_core.specs.Next.{Numbering, GoesByRule, IsReady, next};
ghost use Rattle.dl_event.specs.Auxiliaries.{ItemHasNoAuxiliary};
ghost use Rattle.dl_event.specs.declared.event.Event.TheVariants as event;

use crate::changes::turned_facts;
use crate::committed::committed;
use crate::limits::refused;
use crate::ontology::edited;
use crate::{Edit, Reply, Root};
use dl_edits::decided_facts;
use dl_terms::NoMemory;
use std::alloc::Global;

/// The root after a commit, and the reply. Where the commit is refused, the root is the same. No axiom among the edits
/// has an auxiliary role. It fails only for want of memory.
pub(crate) fn commit(alloc: Global, root: &Root, edits: &[Edit]) -> Result<(Root, Reply), NoMemory>
    requires ready { IsReady root.now }
    requires plain { All (λ e. ItemHasNoAuxiliary e.item) edits.now }
    ensures { (numbering : Numbering) (stream : ℕ) → GoesByRule numbering
        → IfOk result (λ after. after ≡ next numbering root.now stream (event.Commit edits.now)) }
{
    let ontology = edited(alloc, root, edits)?;
    let decided = decided_facts(alloc, edits)?;
    let new = turned_facts(alloc, root, decided.as_slice(), true)?;
    if let Some(why) = refused(alloc, root, &ontology, new.len() as u64)? {
        return Ok((root.copy()?, Reply::Refused(why)));
    }
    let gone = turned_facts(alloc, root, decided.as_slice(), false)?;
    let after = committed(alloc, root, &ontology, new.as_slice(), gone.as_slice())?;
    let version = after.book().version;
    let epoch = after.current().epoch.id();
    Ok((after, Reply::Committed { version, epoch }))
}
