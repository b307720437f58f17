// The variables of a query, numbered in the order in which they first occur.
ghost use Rattle.std.specs.Prelude.{◌≡◌, ◌<◌, [], length, IfOk, OnOk};
ghost use Rattle.dl_names.specs.NameList.{names_after, place_of};

use dl_terms::NoMemory;
use indexmap::IndexSet;
use std::alloc::Global;
use std::marker::Model;

/// The variables met so far. Contracts see the list of their names, in the order of first occurrence.
#[derive(Drop)]
pub(crate) struct Variables<'a> {
    names: IndexSet<&'a [u8]>,
}

impl<'a> Model for Variables<'a> {
    ghost use Rattle.std.specs.Prelude.{List, ℕ, map};

    ghost Value = { List (List ℕ) };

    ghost view = { λ v. map (λ k. k.now) v.names.keys };
}

impl<'a> Variables<'a> {
    /// No variables.
    pub(crate) fn new(alloc: Global) -> Variables<'a>
        ensures { result ≡ [] }
    {
        Variables {
            names: IndexSet::new(alloc),
        }
    }

    /// How many variables there are.
    pub(crate) fn len(&self) -> usize
        ensures { result ≡ length self.now }
    {
        self.names.len()
    }

    /// The number of a variable, which becomes the last one where it isn't there.
    pub(crate) fn number(&mut self, name: &'a [u8]) -> Result<usize, NoMemory>
        ensures met { OnOk result (self.new ≡ names_after self.old name.now) }
        ensures number { IfOk result (λ n. n ≡ place_of (names_after self.old name.now) name.now) }
    {
        let (number, _) = self.names.insert_full(name)?;
        Ok(number)
    }
}
