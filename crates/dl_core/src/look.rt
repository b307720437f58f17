// A look at the current version.
ghost use Rattle.std.specs.Prelude.{◌≡◌, ◌≤◌, ◌++◌, ℕ, All, length, map, filter, flat_map, take, IfOk, OnOk};
ghost use Rattle.std.specs.Arc.{arc_value};
ghost use Rattle.dl_hier.specs.Predicates.{max_predicates};
ghost use Rattle.dl_row.specs.Lists.{count, ordered, Ascends};
ghost use Rattle.dl_row.specs.Rows.{row_cmp, visible};
ghost use Rattle.dl_row.specs.Shards.{max_rows};
ghost use Rattle.dl_core.specs.Next.{Numbering, next, looked};
ghost use Rattle.dl_event.specs.declared.event.Event.TheVariants as event;
ghost use Rattle.dl_event.specs.declared.reply.Reply.TheVariants as reply;

use crate::{Looked, Reply, Root};
use dl_epoch::Epoch;
use dl_row::{PlainShard, Row};
use dl_terms::{List, NoMemory};
use std::alloc::Global;
use std::sync::Arc;

/// The same root, and what a look shows of it: `n` of the first visible rows. It fails only for want of memory.
pub(crate) fn look(alloc: Global, root: &Root, n: u64) -> Result<(Root, Reply), NoMemory>
    ensures { (numbering : Numbering) (stream : ℕ) →
        IfOk result (λ after. after ≡ next numbering root.now stream (event.Look n)) }
{
    let shown = looked(alloc, root, n)?;
    Ok((root.copy()?, Reply::Looked(shown)))
}

/// What a look shows of a root.
fn looked(alloc: Global, root: &Root, n: u64) -> Result<Looked, NoMemory>
    ensures { IfOk result (λ shown. reply.Looked shown ≡ looked root.now n) }
{
    let book = root.book();
    let shards = root.held_shards();
    let current = root.current();
    let epoch: &Epoch = &current.epoch;
    let classes = classes_of(alloc, epoch)?;
    let roles = roles_of(alloc, epoch)?;
    let rows = first_visible(alloc, shards, book.version, n)?;
    Ok(Looked {
        version: book.version,
        epoch: epoch.id(),
        epochs: book.epochs.entries().len() as u32,
        kept: book.rows,
        visible: count_visible(shards, book.version),
        behind: book.rows - current.rows,
        classes,
        roles,
        rows,
    })
}

/// The classes of an epoch, by number. Each class of its signature has one.
fn classes_of(alloc: Global, epoch: &Epoch) -> Result<List<u32>, NoMemory>
    requires as_many { length epoch.now.classes ≡ length epoch.now.signature.classes }
    requires few { length epoch.now.classes ≤ max_predicates }
    ensures { IfOk result (λ names. names ≡ epoch.now.classes) }
{
    let mut names = List::new(alloc);
    for i in 0..epoch.signature().classes.len() as u32 {
        names.push(epoch.class_name(i + 1))?;
    }
    Ok(names)
}

/// The roles of an epoch, by number. Each role of its signature has one.
fn roles_of(alloc: Global, epoch: &Epoch) -> Result<List<u32>, NoMemory>
    requires as_many { length epoch.now.roles ≡ length epoch.now.signature.roles }
    requires few { length epoch.now.roles ≤ max_predicates }
    ensures { IfOk result (λ names. names ≡ epoch.now.roles) }
{
    let mut names = List::new(alloc);
    for i in 0..epoch.signature().roles.len() as u32 {
        names.push(epoch.role_name(i + 1))?;
    }
    Ok(names)
}

/// How many rows of some shards are visible at a version.
fn count_visible(shards: &[Arc<PlainShard, Global>], version: u32) -> u64
    requires { length (flat_map arc_value shards.now) ≤ max_rows }
    ensures { result ≡ count (visible version) (flat_map arc_value shards.now) }
{
    let mut visible = 0;
    for shard in shards {
        visible += count_in(shard, version);
    }
    visible
}

/// How many rows of a shard are visible at a version.
fn count_in(shard: &PlainShard, version: u32) -> u64
    ensures { result ≡ count (visible version) shard.now }
{
    let mut visible = 0;
    for i in 0..shard.len() {
        if shard.row(i).visible(version) {
            visible += 1;
        }
    }
    visible
}

/// The first rows of some shards, in row order over all of them, that are visible at a version: `n` of them, or all
/// where there are fewer. No shard gives more than `n`.
fn first_visible(
    alloc: Global,
    shards: &[Arc<PlainShard, Global>],
    version: u32,
    n: u64,
) -> Result<List<Row>, NoMemory>
    requires { All (Ascends row_cmp) (map arc_value shards.now) }
    ensures { IfOk result (λ rows.
        rows ≡ take n (filter (visible version) (ordered row_cmp (flat_map arc_value shards.now)))) }
{
    let mut rows = List::new(alloc);
    for shard in shards {
        push_first(shard, version, n, &mut rows)?;
    }
    let mut rows = rows.into_vec();
    rows.sort_unstable();
    if n < rows.len() as u64 {
        rows.truncate(n as usize);
    }
    Ok(List::of(rows))
}

/// Appends the first rows of a shard that are visible at a version: `n` of them, or all where there are fewer.
fn push_first(
    shard: &PlainShard,
    version: u32,
    n: u64,
    rows: &mut List<Row>,
) -> Result<(), NoMemory>
    ensures { OnOk result (rows.new ≡ rows.old ++ take n (filter (visible version) shard.now)) }
{
    let mut left = n;
    for i in 0..shard.len() {
        if left == 0 {
            return Ok(());
        }
        let row = shard.row(i);
        if row.visible(version) {
            rows.push(row)?;
            left -= 1;
        }
    }
    Ok(())
}
