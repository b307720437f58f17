// The root after a commit that is accepted.
ghost use Rattle.std.specs.Prelude.{◌≡◌, ℕ, ◌+◌, ◌<◌, ◌≤◌, [], cond, length, map, slice_index_or, IfOk};
ghost use Rattle.std.specs.Arc.{arc_value};
ghost use Rattle.dl_row.specs.Shards.{max_rows};
ghost use Rattle.dl_epoch.specs.Frozen.{IsFrozen};
ghost use Rattle.dl_epoch.specs.Covering.{kept, epoch_in};
ghost use Rattle.dl_core.specs.Root.{rows_in, shard};
ghost use Rattle.dl_core.specs.Next.{Numbering, GoesByRule, IsReady, committed as root_after, committed_epoch};
ghost use Rattle.dl_core.specs.Committing.{IsBuildable, IsNewEntry, IsAccepted, IsCommit, AreShardsAfter, AreEntriesAfter};

use crate::committed_shard::committed_shard;
use crate::copies::{copied_entries, copied_pins, counting};
use crate::new_rows::rows_by_shard;
use crate::ontology::Ontology;
use crate::{Book, Root};
use dl_epoch::{Entry, Epoch, Epochs};
use dl_row::{PlainShard, Row};
use dl_terms::{Fact, List, NoMemory};
use std::alloc::Global;
use std::sync::Arc;

/// The root after a commit that leads to an ontology, and brings and takes away facts. It fails only for want of
/// memory.
pub(crate) fn committed(
    alloc: Global,
    root: &Root,
    ontology: &Ontology,
    new: &[Fact],
    gone: &[Fact],
) -> Result<Root, NoMemory>
    requires ready { IsReady root.now }
    requires commit { IsCommit root.now ontology.now new.now gone.now }
    ensures { (numbering : Numbering) → GoesByRule numbering
        → (c : IsCommit root.now ontology.now new.now gone.now)
        → IfOk result (λ after. after ≡ root_after numbering root.now c.to.edits) }
{
    let book = root.book();
    let version = book.version + 1;
    let count = new.len() as u64;
    let current = current_after(alloc, root, ontology, count)?;
    let parts = rows_by_shard(alloc, &*current.epoch, version, new, root.shards())?;
    let shards = shards_after(alloc, root, gone, &parts, version)?;
    let entries = entries_after(alloc, root, ontology.opens, current)?;
    let book = Book {
        version,
        epochs: Epochs::of(entries),
        pins: copied_pins(alloc, book.pins.as_slice())?,
        rows: book.rows + count,
    };
    Root::of(alloc, book, shards)
}

/// The entry of the current epoch after a commit that brings so many new facts.
fn current_after(
    alloc: Global,
    root: &Root,
    ontology: &Ontology,
    new: u64,
) -> Result<Entry, NoMemory>
    requires ready { IsReady root.now }
    requires few { new ≤ max_rows }
    requires accepted { IsAccepted root.now ontology.now }
    ensures epoch { (numbering : Numbering) → GoesByRule numbering → (a : IsAccepted root.now ontology.now)
        → IfOk result (λ entry. epoch_in (kept entry) ≡ committed_epoch numbering root.now a.edits) }
    ensures rows { IfOk result (λ entry.
        entry.rows ≡ cond ontology.now.opens 0 (rows_in root.now root.now.current) + new) }
    ensures frozen { IfOk result (λ entry. IsFrozen (kept entry).epoch) }
{
    let book = root.book();
    let current = root.current();
    if ontology.opens {
        return new_entry(
            alloc,
            current.epoch.id() + 1,
            book.version + 1,
            ontology,
            new,
        );
    }
    counting(current, current.rows + new)
}

/// The entry of a new epoch, which covers versions from a first one on.
fn new_entry(
    alloc: Global,
    id: u32,
    first: u32,
    ontology: &Ontology,
    rows: u64,
) -> Result<Entry, NoMemory>
    requires { IsBuildable ontology.now }
    ensures { IfOk result (λ entry. IsNewEntry id first ontology.now rows (kept entry)) }
{
    let epoch = Epoch::build(alloc, id, ontology.axioms.as_slice(), &ontology.signature)?;
    match Arc::new(alloc, epoch) {
        Ok(epoch) => Ok(Entry { epoch, first, rows }),
        Err(_) => Err(NoMemory),
    }
}

/// The entries after a commit that opens an epoch, or doesn't: those of older epochs, and then the current one.
fn entries_after(
    alloc: Global,
    root: &Root,
    opens: bool,
    current: Entry,
) -> Result<List<Entry>, NoMemory>
    ensures { IfOk result (λ entries. AreEntriesAfter root.now opens (kept current) (map kept entries)) }
{
    let book = root.book();
    let entries = book.epochs.entries();
    let (older, _) = entries.split_at(older_count(entries.len(), opens));
    let mut after = copied_entries(alloc, older)?;
    after.push(current)?;
    Ok(after)
}

/// How many of the kept epochs are older ones after a commit: all where it opens one, else all but the last.
fn older_count(kept: usize, opens: bool) -> usize
    requires { 1 ≤ kept }
    ensures { result + cond opens 0 1 ≡ kept }
{
    if opens { kept } else { kept - 1 }
}

/// The shards after a commit: the rows of facts that are gone end at a version, and new ones come.
fn shards_after(
    alloc: Global,
    root: &Root,
    gone: &[Fact],
    parts: &[List<Row>],
    version: u32,
) -> Result<List<Arc<PlainShard, Global>>, NoMemory>
    requires ready { IsReady root.now }
    requires parts { length parts.now ≡ root.now.shards }
    requires fit { (i : ℕ) → i < root.now.shards
        → length (shard root.now i) + length (slice_index_or parts.now i []) ≤ max_rows }
    ensures { IfOk result (λ shards. AreShardsAfter root.now gone.now parts.now version root.now.shards
        (map arc_value shards)) }
{
    let mut shards = List::new(alloc);
    for i in 0..root.shards() {
        let new = parts[i as usize].as_slice();
        shards.push(committed_shard(alloc, root, i, gone, new, version)?)?;
    }
    Ok(shards)
}
