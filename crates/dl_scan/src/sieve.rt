// Names sifted by their remainders.
ghost use Rattle.std.specs.Prelude.{◌≡◌, ℕ, true, false, replicate, IfOk};
ghost use Rattle.std.specs.List.{All, list_any};
ghost use Rattle.dl_scan.specs.Sieves.{passes, has_remainder};

use dl_terms::{List, NoMemory, Pair};
use std::alloc::{AllocError, Global};
use std::marker::Model;

/// How many remainders are told apart.
const REMAINDERS: usize = 65_536;

/// A sieve of names. The names that it is made of pass, and of the others those alone that have the remainder of one of
/// them. Contracts see it as a mark for each remainder.
#[derive(Drop)]
pub struct Sieve {
    marks: List<bool>,
}

impl Model for Sieve {
    ghost use Rattle.std.specs.Prelude.{Bool, List as Items};

    ghost Value = { Items Bool };

    ghost view = { λ sieve. sieve.marks };
}

impl Sieve {
    /// A sieve that lets every name pass. It takes no memory.
    pub fn all(alloc: Global) -> Sieve
        ensures { (name : ℕ) → passes result name ≡ true }
    {
        Sieve {
            marks: List::new(alloc),
        }
    }

    /// A sieve that lets the first names of some pairs pass, and of the others those alone that have the remainder of
    /// one of them. It fails only for want of memory.
    pub fn of(alloc: Global, pairs: &[Pair]) -> Result<Sieve, NoMemory>
        ensures pass { IfOk result (λ sieve. All (λ pair. passes sieve pair.0 ≡ true) pairs.now) }
        ensures exact { IfOk result (λ sieve. (name : ℕ) →
            passes sieve name ≡ list_any (has_remainder name) pairs.now) }
    {
        let mut marks = no_marks(alloc, REMAINDERS)?;
        for pair in pairs {
            marks[pair.0 as usize % REMAINDERS] = true;
        }
        Ok(Sieve {
            marks: List::of(marks),
        })
    }

    /// Whether a name passes. It takes no memory.
    pub(crate) fn passes(&self, name: u32) -> bool
        ensures { result ≡ passes self.now name }
    {
        match self.marks.get(name as usize % REMAINDERS) {
            Some(mark) => *mark,
            None => true,
        }
    }
}

/// So many marks, of which none is set.
fn no_marks(alloc: Global, count: usize) -> Result<Vec<bool>, AllocError>
    ensures { IfOk result (λ marks. marks.items ≡ replicate count false) }
{
    vec![in alloc; false; count]
}
