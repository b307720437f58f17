// A root: what the store has at a version, with what pins and rows still need of earlier ones.
ghost use Rattle.std.specs.Prelude.{◌≡◌, ◌<◌, ◌≤◌, length, map, IfOk};
ghost use Rattle.std.specs.Arc.{arc_value};
ghost use Rattle.dl_epoch.specs.Frozen.{IsFrozen};
ghost use Rattle.dl_epoch.specs.Covering.{kept, epoch_in};
ghost use Rattle.dl_core.specs.Root.{shard};
ghost use Rattle.dl_core.specs.Next.{with_pins};
ghost use Rattle.dl_core.specs.Held.{root_over, IsHeld, IsBookOf, AreShardsOf, IsSound, CountsRows};

use crate::copies::copied_entries;
use crate::held::Held;
use crate::{Book, Pin};
use dl_epoch::{Entry, Epochs};
use dl_row::PlainShard;
use dl_terms::{List, NoMemory};
use std::alloc::Global;
use std::marker::Model;
use std::sync::Arc;

/// A version of the store with its epochs, pins and rows, which stands for a history. It doesn't change: each event
/// makes another one, which shares with it what is the same in both.
#[derive(Drop)]
pub struct Root {
    held: Arc<Held, Global>,
}

impl Model for Root {
    ghost use Rattle.dl_core.specs.Root.{Root as Shown};

    ghost Value = { Shown };

    ghost use Rattle.std.specs.Arc.{arc_value};
    ghost use Rattle.std.specs.Prelude.{map};
    ghost use Rattle.dl_core.specs.Held.{root_over, IsHeld};

    ghost view = { λ r. root_over (arc_value r.held).book (map arc_value (arc_value r.held).shards) };

    ghost invariant = { λ r. IsHeld
        (root_over (arc_value r.held).book (map arc_value (arc_value r.held).shards))
        (arc_value r.held).book (map arc_value (arc_value r.held).shards) };
}

impl Root {
    /// The root of a book and shards. It fails only for want of memory.
    pub(crate) fn of(
        alloc: Global,
        book: Book,
        shards: List<Arc<PlainShard, Global>>,
    ) -> Result<Root, NoMemory>
        requires { IsHeld (root_over book (map arc_value shards)) book (map arc_value shards) }
        ensures { IfOk result (λ root. root ≡ root_over book (map arc_value shards)) }
    {
        match Arc::new(alloc, Held { book, shards }) {
            Ok(held) => Ok(Root { held }),
            Err(_) => Err(NoMemory),
        }
    }

    /// The same root. It allocates nothing, but a further reference to it may be refused, which counts as want of
    /// memory.
    pub fn copy(&self) -> Result<Root, NoMemory>
        ensures { IfOk result (λ root. root ≡ self.now) }
    {
        let held = Arc::try_clone(&self.held)?;
        Ok(Root { held })
    }

    /// Its book. It takes no memory.
    pub fn book(&self) -> &Book
        ensures book { IsBookOf self.now result.now }
        ensures sound { IsSound self.now }
    {
        &self.held.book
    }

    /// How many shards there are, from 1 to 64. It takes no memory.
    pub fn shards(&self) -> u32
        ensures count { result ≡ self.now.shards }
        ensures some { 1 ≤ result }
        ensures few { result ≤ 64 }
    {
        self.held.shards.len() as u32
    }

    /// A shard by its number, from 0. It takes no memory.
    pub fn shard(&self, i: u32) -> &PlainShard
        requires { i < self.now.shards }
        ensures { result.now ≡ shard self.now i }
    {
        &self.held.shards.as_slice()[i as usize]
    }
    /// A shard, shared. A further reference to it may be refused, which counts as want of memory.
    pub(crate) fn shared_shard(&self, i: u32) -> Result<Arc<PlainShard, Global>, NoMemory>
        requires { i < self.now.shards }
        ensures { IfOk result (λ s. arc_value s ≡ shard self.now i) }
    {
        Ok(Arc::try_clone(&self.held.shards.as_slice()[i as usize])?)
    }

    /// The entry of the current epoch. It takes no memory.
    pub(crate) fn current(&self) -> &Entry
        ensures epoch { epoch_in (kept result.now) ≡ self.now.current }
        ensures rows { CountsRows self.now (kept result.now) }
        ensures frozen { IsFrozen (kept result.now).epoch }
    {
        let entries = self.held.book.epochs.entries();
        &entries[entries.len() - 1]
    }

    /// All shards, as they are held. It takes no memory.
    pub(crate) fn held_shards(&self) -> &[Arc<PlainShard, Global>]
        ensures { AreShardsOf self.now (map arc_value result.now) }
    {
        self.held.shards.as_slice()
    }

    /// All shards, shared. It fails only for want of memory.
    pub(crate) fn shared_shards(
        &self,
        alloc: Global,
    ) -> Result<List<Arc<PlainShard, Global>>, NoMemory>
        ensures { IfOk result (λ shards. AreShardsOf self.now (map arc_value shards)) }
    {
        shared(alloc, self.held.shards.as_slice())
    }

    /// The root with other pins, which stands for some history. It fails only for want of memory.
    pub(crate) fn with_pins(&self, alloc: Global, pins: List<Pin>) -> Result<Root, NoMemory>
        requires { IsSound (with_pins self.now pins) }
        ensures { IfOk result (λ root. root ≡ with_pins self.now pins) }
    {
        let shards = self.shared_shards(alloc)?;
        let book = self.book();
        let entries = copied_entries(alloc, book.epochs.entries())?;
        let book = Book {
            version: book.version,
            epochs: Epochs::of(entries),
            pins,
            rows: book.rows,
        };
        Root::of(alloc, book, shards)
    }
}

/// The same shards, shared.
fn shared(
    alloc: Global,
    shards: &[Arc<PlainShard, Global>],
) -> Result<List<Arc<PlainShard, Global>>, NoMemory>
    ensures { IfOk result (λ copies. map arc_value copies ≡ map arc_value shards.now) }
{
    let mut copies = List::new(alloc);
    for shard in shards {
        copies.push(Arc::try_clone(shard)?)?;
    }
    Ok(copies)
}
