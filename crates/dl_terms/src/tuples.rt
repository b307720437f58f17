// Tuples of names of one width, in one vector.
ghost use Rattle.std.specs.Prelude.{◌≡◌, ◌∷◌, ◌++◌, ◌<◌, [], length, slice_index, slice_index_or, All, OnOk, OnErr};

use crate::NoMemory;
use std::alloc::Global;
use std::marker::Model;

/// Two names: the ends of a role fact, or the individual of a class fact twice.
pub type Pair = (u32, u32);

/// A list of tuples of names, which all have one width.
/// A clause reads the width as `width`, and the list of the tuples, each a list of names, as `tuples`.
#[derive(Drop)]
pub struct Tuples {
    width: u32,
    count: u64,
    names: Vec<u32>,
}

impl Model for Tuples {
    ghost use Rattle.std.specs.Prelude.{ℕ};
    ghost use Rattle.dl_terms.specs.Table.{Table, table_code};

    ghost Value = { Table };

    ghost coded = { table_code };

    ghost use Rattle.std.specs.Prelude.{◌≡◌, ◌*◌, length};
    ghost use Rattle.dl_terms.specs.Table.{cut};

    ghost view = { λ t. record { width = t.width; tuples = cut t.width t.count t.names.items } };

    ghost invariant = { λ t. length t.names.items ≡ t.count * t.width };
}

impl Tuples {
    /// No tuple yet, of a width. It takes no memory.
    pub fn new(alloc: Global, width: u32) -> Tuples
        ensures width { result.width ≡ width }
        ensures none { result.tuples ≡ [] }
    {
        Tuples {
            width,
            count: 0,
            names: Vec::new(alloc),
        }
    }

    /// How many names each tuple has. It takes no memory.
    pub fn width(&self) -> u32
        ensures width { result ≡ self.now.width }
        ensures each { All (λ tuple. length tuple ≡ self.now.width) self.now.tuples }
    {
        self.width
    }

    /// How many tuples there are. It takes no memory.
    pub fn len(&self) -> u64
        ensures { result ≡ length self.now.tuples }
    {
        self.count
    }

    /// The name at the index `j` of the tuple at the index `i`. It takes no memory.
    pub fn name(&self, i: u64, j: u32) -> u32
        requires row { i < length self.now.tuples }
        requires column { j < self.now.width }
        ensures { result ≡ slice_index (slice_index_or self.now.tuples i []) j }
    {
        let names = self.names.as_slice();
        names[i as usize * self.width as usize + j as usize]
    }

    /// Adds a tuple, which is as long as the width, at the end. After `NoMemory` the tuples are as before.
    /// It comes also where 2^64 - 1 tuples are there, which only tuples of no name can reach.
    pub fn push(&mut self, tuple: &[u32]) -> Result<(), NoMemory>
        requires { length tuple.now ≡ self.old.width }
        ensures width { self.new.width ≡ self.old.width }
        ensures ok { OnOk result (self.new.tuples ≡ self.old.tuples ++ tuple.now ∷ []) }
        ensures err { OnErr result (self.new.tuples ≡ self.old.tuples) }
    {
        // A count at its end is want of memory.
        let Some(count) = self.count.checked_add(1) else {
            return Err(NoMemory);
        };
        self.names.extend_from_slice(tuple)?;
        self.count = count;
        Ok(())
    }
}
