// Copies of what roots share and of what they don't.
ghost use Rattle.std.specs.Prelude.{◌≡◌, map, IfOk};
ghost use Rattle.dl_epoch.specs.Covering.{kept};
ghost use Rattle.dl_core.specs.Held.{counting};

use crate::Pin;
use dl_epoch::Entry;
use dl_terms::{List, NoMemory};
use std::alloc::Global;
use std::sync::Arc;

/// An entry with its epoch shared, which counts so many rows. It fails only for want of memory.
pub(crate) fn counting(entry: &Entry, rows: u64) -> Result<Entry, NoMemory>
    ensures { IfOk result (λ e. kept e ≡ counting rows (kept entry.now)) }
{
    let epoch = Arc::try_clone(&entry.epoch)?;
    Ok(Entry {
        epoch,
        first: entry.first,
        rows,
    })
}

/// The same entries, with their epochs shared. It fails only for want of memory.
pub(crate) fn copied_entries(alloc: Global, entries: &[Entry]) -> Result<List<Entry>, NoMemory>
    ensures { IfOk result (λ copies. map kept copies ≡ map kept entries.now) }
{
    let mut copies = List::new(alloc);
    for entry in entries {
        copies.push(counting(entry, entry.rows)?)?;
    }
    Ok(copies)
}

/// The same pins. It fails only for want of memory.
pub(crate) fn copied_pins(alloc: Global, pins: &[Pin]) -> Result<List<Pin>, NoMemory>
    ensures { IfOk result (λ copies. copies ≡ pins.now) }
{
    Ok(List::of(Vec::from_slice(alloc, pins)?))
}
