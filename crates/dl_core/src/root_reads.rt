// The plain reader.
ghost use Rattle.std.specs.Prelude.{◌≡◌, List as Items};
ghost use Rattle.dl_core.specs.History.{Load, Entry};
ghost use Rattle.dl_core.specs.Root.{IsLoad};
ghost use Rattle.dl_core.specs.Next.{Numbering, IsNumbering};
ghost use Rattle.dl_core.specs.Legal.{IsLegal, root_of, ReaderStandsFor, plain_reader};

use crate::pins::pin_in;
use crate::{Book, Pin, Reads, Root};
use dl_row::PlainShard;
use std::marker::Model;

/// A reader of one root, which stays the same. It stands for each load and list of events whose root it is.
#[derive(Drop)]
pub struct RootReads {
    pub root: Root,
    pub stream: u32,
    /// The shard that was fetched last.
    pub at: u32,
}

impl Model for RootReads {
    ghost use Rattle.std.specs.Prelude.{◌<◌};
    ghost use Rattle.dl_core.specs.Legal.{Reader, plain_reader};

    ghost Value = { Reader };

    ghost view = { λ r. plain_reader r.root r.stream r.at };

    ghost invariant = { λ r. r.at < r.root.shards };
}

impl RootReads {
    /// The reader of a root for a stream. It takes no memory.
    pub fn new(root: Root, stream: u32) -> RootReads
        ensures reader { result ≡ plain_reader root stream 0 }
        ensures stands { (numbering : Numbering) (l : Load) (seen : Items Entry) →
            IsNumbering numbering → IsLoad l → IsLegal numbering l seen →
            root ≡ root_of numbering l seen → ReaderStandsFor numbering l seen result }
    {
        // There is a first shard.
        let _shards = root.shards();
        RootReads {
            root,
            stream,
            at: 0,
        }
    }
}

impl Reads for RootReads {
    ghost reader = { λ r. r };

    ghost stands = { λ r numbering l seen. ReaderStandsFor numbering l seen r };

    ghost stands_for = { λ r numbering l seen stands. stands };

    fn pin(&self) -> Option<Pin> {
        let version = pin_in(self.root.book().pins.as_slice(), self.stream)?;
        Some(Pin {
            stream: self.stream,
            version,
        })
    }

    fn shards(&self) -> u32 {
        self.root.shards()
    }

    fn fetch(&mut self, shard: u32) {
        self.at = shard;
    }

    fn book(&self) -> &Book {
        self.root.book()
    }

    fn shard(&self) -> &PlainShard {
        self.root.shard(self.at)
    }
}
