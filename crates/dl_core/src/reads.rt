// Readers of roots.
ghost use Rattle.std.specs.Prelude.{◌≡◌, ◌<◌, ◌≤◌, IsSome, List as Items};
ghost use Rattle.dl_core.specs.History.{Load, Entry};
ghost use Rattle.dl_core.specs.Root.{pin_in};
ghost use Rattle.dl_core.specs.Next.{Numbering};
ghost use Rattle.dl_core.specs.Legal.{Reader, ReaderStandsFor, SeesMore, IsFetch, lent, pin_shown};
ghost use Rattle.dl_core.specs.Held.{IsBookOf, IsSound};

use crate::{Book, Pin};
use dl_row::PlainShard;

/// A reader of one stream, which shows one history that only grows. It holds a root after a list of events, and lends
/// the root's book and the shard that was fetched last; before the first fetch it is shard 0. None of its calls takes
/// memory.
pub trait Reads {
    // What it holds.
    ghost reader: { Self → Reader };
    // The loads and the lists of entries that it stands for.
    ghost stands: { Self → Numbering → Load → Items Entry → Type 0 };

    /// The pin of its stream, or `None` where the root has none.
    fn pin(&self) -> Option<Pin>
        ensures pin { result ≡ pin_shown (reader self.now) }
        ensures held { pin_in (reader self.now).root.pins (reader self.now).stream ≡ (reader self.now).pin };

    /// How many shards there are, from 1 to 64.
    fn shards(&self) -> u32
        ensures count { result ≡ (reader self.now).root.shards }
        ensures some { 1 ≤ result }
        ensures few { result ≤ 64 };

    /// Comes to the root after a list of events that begins with all that this reader has seen, and in which its pin is
    /// still there; and fetches a shard of it. A pin is there, and the shard is in range.
    fn fetch(&mut self, shard: u32)
        requires pin { IsSome (reader self.old).pin }
        requires within { shard < (reader self.old).root.shards }
        ensures fetch { IsFetch shard (reader self.old) (reader self.new) }
        ensures seen { (numbering : Numbering) (l : Load) (before : Items Entry) →
            stands self.old numbering l before → SeesMore (stands self.new numbering l) before };

    /// The book of the root.
    fn book(&self) -> &Book
        ensures book { IsBookOf (reader self.now).root result.now }
        ensures sound { IsSound (reader self.now).root };

    /// The shard of the root that was fetched last.
    fn shard(&self) -> &PlainShard
        ensures { result.now ≡ lent (reader self.now) };

    // Such a list is legal, the root is the one after it, and the pin is that of the stream in it.
    ghost stands_for: { (x : Self) (numbering : Numbering) (l : Load) (seen : Items Entry) →
        stands x numbering l seen → ReaderStandsFor numbering l seen (reader x) };
}
