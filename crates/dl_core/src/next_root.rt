// The root and the reply after an event.
ghost use Rattle.std.specs.Prelude.{◌≡◌, List, IfOk};
ghost use Rattle.dl_core.specs.History.{Load, Entry};
ghost use Rattle.dl_core.specs.Root.{StandsFor};
ghost use Rattle.dl_core.specs.Next.{Numbering, GoesByRule, MeetsCondition, next};
ghost use Rattle.dl_core.specs.Legal.{IsLegal, root_of};
ghost use Rattle.dl_core.specs.Steps.{longer, IsStep};

use crate::commit::commit;
use crate::look::look;
use crate::maintain::{migrated, swept};
use crate::pins::{pinned, unpinned};
use crate::reclaim::reclaimed;
use crate::{Event, Reply, Root};
use dl_terms::NoMemory;
use std::alloc::Global;

/// The root after what a stream asks for, and what it is told. The version is at most 2,147,483,648, and no axiom among
/// the edits of a commit has an auxiliary role. Where the event is refused, the root is the same. It fails only for want of
/// memory; the root that was lent is as before in any case.
pub fn step(
    alloc: Global,
    root: &Root,
    stream: u32,
    event: &Event,
) -> Result<(Root, Reply), NoMemory>
    requires { MeetsCondition root.now event.now }

    // The next root and the reply, by any numbering that goes by the rule.
    ensures next { (numbering : Numbering) → GoesByRule numbering
        → IfOk result (λ after. after ≡ next numbering root.now stream event.now) }

    // What the root stands for, the next one stands for with the event at its end.
    ensures keeps { (load : Load) (history : List Entry) → StandsFor load history root.now
        → IfOk result (λ after. StandsFor load (longer history stream event.now after.1) after.0) }

    // From the root of a legal history it leads to that of a longer one.
    ensures legal { (numbering : Numbering) → GoesByRule numbering → (load : Load) (history : List Entry)
        → IsLegal numbering load history → root.now ≡ root_of numbering load history
        → IfOk result (IsStep numbering load history stream event.now) }
{
    stepped(alloc, root, stream, event)
}

/// The root after what a stream asks for, and what it is told.
fn stepped(
    alloc: Global,
    root: &Root,
    stream: u32,
    event: &Event,
) -> Result<(Root, Reply), NoMemory>
    requires { MeetsCondition root.now event.now }
    ensures { (numbering : Numbering) → GoesByRule numbering
        → IfOk result (λ after. after ≡ next numbering root.now stream event.now) }
{
    match event {
        Event::Commit(edits) => commit(alloc, root, edits.as_slice()),
        Event::Pin => pinned(alloc, root, stream),
        Event::Unpin => unpinned(alloc, root, stream),
        Event::Migrate { shard, n } => migrated(alloc, root, *shard, *n),
        Event::Sweep { shard, n } => swept(alloc, root, *shard, *n),
        Event::Reclaim => reclaimed(alloc, root),
        Event::Look { rows } => look(alloc, root, *rows),
    }
}
