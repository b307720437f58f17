// Reclaim: the epochs that nothing needs any more are dropped.
ghost use Rattle.std.specs.Prelude.{◌≡◌, ◌==◌, ℕ, not, filter, map, IfOk};
ghost use Rattle.std.specs.List.{list_any};
ghost use Rattle.dl_epoch.specs.Covering.{kept};
ghost use Rattle.dl_core.specs.Next.{Numbering, next};
ghost use Rattle.dl_event.specs.declared.event.Event.TheVariants as event;

use crate::copies::{copied_pins, counting};
use crate::{Book, Pin, Reply, Root};
use dl_epoch::{Entry, Epochs};
use dl_migrate::dead;
use dl_terms::{List, NoMemory};
use std::alloc::Global;

/// The root without the older epochs that no row carries and that cover no pinned version, and the reply. It fails only
/// for want of memory.
pub(crate) fn reclaimed(alloc: Global, root: &Root) -> Result<(Root, Reply), NoMemory>
    ensures { (numbering : Numbering) (stream : ℕ)
        → IfOk result (λ after. after ≡ next numbering root.now stream event.Reclaim) }
{
    let book = root.book();
    let pins = versions_of(alloc, book.pins.as_slice())?;
    let ids = dead(alloc, &book.epochs, pins.as_slice())?;
    let entries = entries_without(alloc, book.epochs.entries(), ids.as_slice())?;
    let shards = root.shared_shards(alloc)?;
    let book = Book {
        version: book.version,
        epochs: Epochs::of(entries),
        pins: copied_pins(alloc, book.pins.as_slice())?,
        rows: book.rows,
    };
    let after = Root::of(alloc, book, shards)?;
    Ok((after, Reply::Reclaimed { ids }))
}

/// The pinned versions.
fn versions_of(alloc: Global, pins: &[Pin]) -> Result<List<u32>, NoMemory>
    ensures { IfOk result (λ versions. versions ≡ map (λ p. p.version) pins.now) }
{
    let mut versions = List::new(alloc);
    for pin in pins {
        versions.push(pin.version)?;
    }
    Ok(versions)
}

/// The entries whose ids aren't among some, with their epochs shared.
fn entries_without(alloc: Global, entries: &[Entry], ids: &[u32]) -> Result<List<Entry>, NoMemory>
    ensures { IfOk result (λ others. map kept others
        ≡ filter (λ k. not (list_any (λ id. id == k.epoch.id) ids.now)) (map kept entries.now)) }
{
    let mut others = List::new(alloc);
    for entry in entries {
        if !is_among(ids, entry.epoch.id()) {
            others.push(counting(entry, entry.rows)?)?;
        }
    }
    Ok(others)
}

/// Whether an id is among some.
fn is_among(ids: &[u32], id: u32) -> bool
    ensures { result ≡ list_any (λ other. other == id) ids.now }
{
    for other in ids {
        if *other == id {
            return true;
        }
    }
    false
}
