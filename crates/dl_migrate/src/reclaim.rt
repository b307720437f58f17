// Epochs that nothing needs any more.
ghost use Rattle.std.specs.Prelude.{◌≡◌, IfOk};
ghost use Rattle.std.specs.List.Sorted.{IsStrictlyIncreasing};
ghost use Rattle.dl_migrate.specs.Reclaiming.{dead_ids, has_between, is_dead_before};

use dl_epoch::{Entry, Epochs};
use dl_terms::{List, NoMemory};
use std::alloc::Global;

/// The ids, ascending, of the entries that aren't last, that have no rows, and that cover none of the pinned versions.
/// It fails only for want of memory.
pub fn dead(alloc: Global, epochs: &Epochs, pins: &[u32]) -> Result<List<u32>, NoMemory>
    ensures dead { IfOk result (λ ids. ids ≡ dead_ids epochs.now pins.now) }
    ensures ascending { IfOk result IsStrictlyIncreasing }
{
    let entries = epochs.entries();
    let mut ids = List::new(alloc);
    for i in 0..entries.len().saturating_sub(1) {
        let entry = &entries[i];
        if is_dead_before(entry, entries[i + 1].first, pins) {
            ids.push(entry.epoch.id())?;
        }
    }
    Ok(ids)
}

/// Whether an entry, before one that begins at a version, has no rows and covers none of the pins.
fn is_dead_before(entry: &Entry, next: u32, pins: &[u32]) -> bool
    ensures { result ≡ is_dead_before entry.now.rows entry.now.first next pins.now }
{
    entry.rows == 0 && !one_between(pins, entry.first, next)
}

/// Whether one of some versions is from a first one on and before another one.
fn one_between(versions: &[u32], from: u32, to: u32) -> bool
    ensures { result ≡ has_between from to versions.now }
{
    for version in versions {
        if from <= *version && *version < to {
            return true;
        }
    }
    false
}
