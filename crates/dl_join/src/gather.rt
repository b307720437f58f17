// Tuples gathered in any order, and made distinct each time that they double, or where another first name begins.
ghost use Rattle.std.specs.Prelude.{◌≡◌, ℕ, List, [], length, map, OnOk, IfOk, ◌⊎◌, ◌≤◌, slice_index_or};
ghost use Rattle.std.specs.List.{All, Contains};
ghost use Rattle.dl_terms.specs.Sets.{IsSetOf};
ghost use Rattle.dl_join.specs.Searching.{name_or_zero};
ghost use Rattle.dl_join.specs.Direct.{row_of};
ghost use Rattle.dl_join.specs.Tuples.{AreExactly, AreMoreThan, tuple_cmp, ComparesLast, AllBefore};

use crate::JoinFault;
use crate::merged::{copy_tuple, merge};
use crate::need::{Column, name_in};
use dl_terms::{List, NoMemory, Pair, Term, Tuples, set_of};
use std::alloc::{AllocError, Global};
use std::cmp::Ordering;
use std::mem;

/// How many tuples are gathered at least before they are made distinct.
const BATCH: u64 = 4096;

/// Tuples that are known to be distinct, ascending, and fresh ones in the order in which they were found. From the
/// first one that comes out of order on, those of one first name are gathered, and made known together, as long as they
/// come by ascending first names.
#[derive(Drop)]
pub struct Gathered {
    alloc: Global,
    limit: u64,
    known: Tuples,
    fresh: List<List<u32>>,
    last: Vec<u32>,
    in_order: bool,
    grouped: bool,
}

impl Gathered {
    ghost use Rattle.dl_join.specs.Gathering.{Has, IsGathered, Gathers};

    /// None yet, of a width.
    pub fn new(alloc: Global, width: u32, limit: u64) -> Gathered
        ensures valid { IsGathered result }
        ensures none { (tuple : List ℕ) → Has result tuple → ⊥ }
        ensures limit { result.limit ≡ limit }
        ensures width { result.known.width ≡ width }
    {
        Gathered {
            alloc,
            limit,
            known: Tuples::new(alloc, width),
            fresh: List::new(alloc),
            last: Vec::new(alloc),
            in_order: true,
            grouped: false,
        }
    }

    /// Adds the tuple of a head of names.
    pub fn add(&mut self, head: &[Term]) -> Result<(), JoinFault>
        requires valid { IsGathered self.old }
        requires width { length head.now ≡ self.old.known.width }
        ensures ok { OnOk result (Gathers (λ tuple. tuple ≡ map name_or_zero head.now) self.old self.new) }
        ensures many { result ≡ Err JoinFault.TooMany → AreMoreThan self.old.limit
            (λ tuple. Has self.old tuple ⊎ (tuple ≡ map name_or_zero head.now)) }
    {
        let tuple = names_of(self.alloc, head)?;
        self.begin(tuple.as_slice())?;
        self.add_own(tuple)
    }

    /// Adds a tuple, to the fresh ones where those of one first name are gathered.
    fn add_own(&mut self, tuple: Vec<u32>) -> Result<(), JoinFault>
        requires valid { IsGathered self.old }
        requires width { length tuple.items ≡ self.old.known.width }
        ensures ok { OnOk result (Gathers (λ t. t ≡ tuple.items) self.old self.new) }
        ensures many { result ≡ Err JoinFault.TooMany → AreMoreThan self.old.limit
            (λ t. Has self.old t ⊎ (t ≡ tuple.items)) }
    {
        if self.grouped {
            return self.add_fresh(tuple);
        }
        self.add_tuple(tuple.as_slice())
    }

    /// Makes the fresh tuples known where another first name begins, as long as this keeps them in order.
    fn begin(&mut self, tuple: &[u32]) -> Result<(), JoinFault>
        requires { IsGathered self.old }
        ensures ok { OnOk result (Gathers (λ t. ⊥) self.old self.new) }
        ensures many { result ≡ Err JoinFault.TooMany → AreMoreThan self.old.limit (Has self.old) }
    {
        if !self.in_order || !begins_behind(self.fresh.as_slice(), tuple) {
            return Ok(());
        }
        if !self.grouped {
            self.settle()?;
            self.grouped = true;
            return Ok(());
        }
        self.add_again()?;
        self.in_order = self.fresh.len() == 0;
        Ok(())
    }

    /// Adds the fresh tuples again, in order.
    fn add_again(&mut self) -> Result<(), JoinFault>
        requires { IsGathered self.old }
        ensures ok { OnOk result (Gathers (λ t. ⊥) self.old self.new) }
        ensures many { result ≡ Err JoinFault.TooMany → AreMoreThan self.old.limit (Has self.old) }
    {
        let fresh = mem::replace(&mut self.fresh, List::new(self.alloc));
        let set = set_of(fresh);
        self.add_all(set.as_slice())
    }

    fn add_all(&mut self, tuples: &[List<u32>]) -> Result<(), JoinFault>
        requires valid { IsGathered self.old }
        requires widths { All (λ tuple. length tuple ≡ self.old.known.width) tuples.now }
        ensures ok { OnOk result (Gathers (Contains tuples.now) self.old self.new) }
        ensures many { result ≡ Err JoinFault.TooMany → AreMoreThan self.old.limit
            (λ t. Has self.old t ⊎ Contains tuples.now t) }
    {
        for tuple in tuples {
            self.add_tuple(tuple.as_slice())?;
        }
        Ok(())
    }

    /// Adds the first names, one or two, of each pair from a column on.
    pub fn add_rows(
        &mut self,
        pairs: &[Pair],
        column: Column,
        width: usize,
    ) -> Result<(), JoinFault>
        requires valid { IsGathered self.old }
        requires width { width ≡ self.old.known.width }
        requires range { width ≤ 2 }
        ensures ok { OnOk result (Gathers (Contains (map (row_of column width) pairs.now)) self.old self.new) }
        ensures many { result ≡ Err JoinFault.TooMany → AreMoreThan self.old.limit
            (λ t. Has self.old t ⊎ Contains (map (row_of column width) pairs.now) t) }
    {
        for pair in pairs {
            let row = [name_in(*pair, column), pair.1];
            self.add_tuple(&row[..width])?;
        }
        Ok(())
    }

    fn add_tuple(&mut self, tuple: &[u32]) -> Result<(), JoinFault>
        requires valid { IsGathered self.old }
        requires width { length tuple.now ≡ self.old.known.width }
        ensures ok { OnOk result (Gathers (λ t. t ≡ tuple.now) self.old self.new) }
        ensures many { result ≡ Err JoinFault.TooMany → AreMoreThan self.old.limit
            (λ t. Has self.old t ⊎ (t ≡ tuple.now)) }
    {
        if self.fresh.len() > 0 {
            return self.add_copy(tuple);
        }
        match self.compare_last(tuple)? {
            Ordering::Less => self.add_copy(tuple),
            Ordering::Equal => Ok(()),
            Ordering::Greater => self.add_known(tuple),
        }
    }

    /// How a tuple compares with the last that is known: greater where none is.
    fn compare_last(&mut self, tuple: &[u32]) -> Result<Ordering, AllocError>
        requires { IsGathered self.old }
        ensures known { self.new.known ≡ self.old.known }
        ensures fresh { self.new.fresh ≡ self.old.fresh }
        ensures limit { self.new.limit ≡ self.old.limit }
        ensures order { IfOk result (λ order. ComparesLast order self.old.known.tuples tuple.now) }
    {
        let known = self.known.len();
        if known == 0 {
            return Ok(Ordering::Greater);
        }
        copy_tuple(&self.known, known - 1, &mut self.last)?;
        Ok(tuple.cmp(self.last.as_slice()))
    }

    /// Adds a tuple that is after all that are known.
    fn add_known(&mut self, tuple: &[u32]) -> Result<(), JoinFault>
        requires valid { IsGathered self.old }
        requires width { length tuple.now ≡ self.old.known.width }
        requires after { AllBefore self.old.known.tuples tuple.now }
        ensures ok { OnOk result (Gathers (λ t. t ≡ tuple.now) self.old self.new) }
        ensures many { result ≡ Err JoinFault.TooMany → AreMoreThan self.old.limit
            (λ t. Has self.old t ⊎ (t ≡ tuple.now)) }
    {
        if self.known.len() >= self.limit {
            return Err(JoinFault::TooMany);
        }
        self.known.push(tuple)?;
        Ok(())
    }

    /// Adds a copy of a tuple to the fresh ones.
    fn add_copy(&mut self, tuple: &[u32]) -> Result<(), JoinFault>
        requires valid { IsGathered self.old }
        requires width { length tuple.now ≡ self.old.known.width }
        ensures ok { OnOk result (Gathers (λ t. t ≡ tuple.now) self.old self.new) }
        ensures many { result ≡ Err JoinFault.TooMany → AreMoreThan self.old.limit
            (λ t. Has self.old t ⊎ (t ≡ tuple.now)) }
    {
        let copy = copied(self.alloc, tuple)?;
        self.add_fresh(copy)
    }

    /// Adds a tuple to the fresh ones, which are made known where they are as many as these.
    fn add_fresh(&mut self, tuple: Vec<u32>) -> Result<(), JoinFault>
        requires valid { IsGathered self.old }
        requires width { length tuple.items ≡ self.old.known.width }
        ensures ok { OnOk result (Gathers (λ t. t ≡ tuple.items) self.old self.new) }
        ensures many { result ≡ Err JoinFault.TooMany → AreMoreThan self.old.limit
            (λ t. Has self.old t ⊎ (t ≡ tuple.items)) }
    {
        self.push_fresh(tuple)?;
        if (self.fresh.len() as u64) < self.known.len().max(BATCH) {
            return Ok(());
        }
        self.settle()
    }

    fn push_fresh(&mut self, tuple: Vec<u32>) -> Result<(), NoMemory>
        requires valid { IsGathered self.old }
        requires width { length tuple.items ≡ self.old.known.width }
        ensures { OnOk result (Gathers (λ t. t ≡ tuple.items) self.old self.new) }
    {
        self.fresh.push(List::of(tuple))?;
        Ok(())
    }

    /// Makes the fresh tuples known.
    fn settle(&mut self) -> Result<(), JoinFault>
        requires { IsGathered self.old }
        ensures ok { OnOk result (Gathers (λ t. ⊥) self.old self.new) }
        ensures fresh { OnOk result (self.new.fresh ≡ []) }
        ensures many { result ≡ Err JoinFault.TooMany → AreMoreThan self.old.limit (Has self.old) }
    {
        let fresh = mem::replace(&mut self.fresh, List::new(self.alloc));
        let batch = batch_of(self.alloc, self.known.width(), fresh)?;
        self.known = merge(self.alloc, &self.known, &batch, self.limit)?;
        Ok(())
    }

    /// The distinct tuples, ascending.
    pub fn finish(self) -> Result<Tuples, JoinFault>
        requires { IsGathered self }
        ensures tuples { IfOk result (λ all. AreExactly (Has self) all.tuples) }
        ensures width { IfOk result (λ all. all.width ≡ self.known.width) }
        ensures within { IfOk result (λ all. length all.tuples ≤ self.limit) }
        ensures many { result ≡ Err JoinFault.TooMany → AreMoreThan self.limit (Has self) }
    {
        let mut gathered = self;
        if gathered.fresh.len() == 0 {
            return Ok(gathered.known);
        }
        gathered.settle()?;
        Ok(gathered.known)
    }
}

fn copied(alloc: Global, tuple: &[u32]) -> Result<Vec<u32>, AllocError>
    ensures { IfOk result (λ copy. copy.items ≡ tuple.now) }
{
    let mut copy = Vec::new(alloc);
    copy.extend_from_slice(tuple)?;
    Ok(copy)
}

/// True where there are tuples, and the first name of another one is behind that of the last.
fn begins_behind(tuples: &[List<u32>], tuple: &[u32]) -> bool {
    let Some(last) = tuples.last() else {
        return false;
    };
    match tuple.first() {
        Some(name) => last.as_slice().first().is_some_and(|other| *other < *name),
        None => false,
    }
}

/// Tuples of one width as a set.
fn batch_of(alloc: Global, width: u32, fresh: List<List<u32>>) -> Result<Tuples, NoMemory>
    requires { All (λ tuple. length tuple ≡ width) fresh }
    ensures width { IfOk result (λ batch. batch.width ≡ width) }
    ensures set { IfOk result (λ batch. IsSetOf tuple_cmp batch.tuples fresh) }
{
    let set = set_of(fresh);
    let mut batch = Tuples::new(alloc, width);
    for tuple in set.as_slice() {
        batch.push(tuple.as_slice())?;
    }
    Ok(batch)
}

/// The names that the terms of a head of names are.
fn names_of(alloc: Global, head: &[Term]) -> Result<Vec<u32>, AllocError>
    ensures { IfOk result (λ names. names.items ≡ map name_or_zero head.now) }
{
    head.iter().map(|term| name_of(*term)).collect(alloc)
}

/// The name that a term of a head of names is.
fn name_of(term: Term) -> u32
    ensures { result ≡ name_or_zero term }
{
    match term {
        Term::Name(name) => name,
        Term::Var(_) => 0,
    }
}
