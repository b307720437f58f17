// Names and their numbers.
ghost use Rattle.std.specs.Prelude.{◌≡◌, ◌<◌, ◌≤◌, ◌^◌, ℕ, length, map, get_or, All, Contains, IfOk, IfSome, MatchOption};
ghost use Rattle.std.specs.List.Sorted.{IsStrictlyIncreasing};
ghost use Rattle.dl_reach.specs.Digraph.{max_nodes};
ghost use Rattle.dl_numbers.specs.Numbers.{HasNumber, IsBelow};
ghost use Rattle.dl_numbers.specs.Rule.{IsByRule};
ghost use Rattle.dl_numbers.specs.Beside.{AreAtPlaces};

use crate::order::depth_first;
use dl_reach::Closure;
use dl_terms::NoMemory;
use std::alloc::Global;
use std::marker::Model;

/// Names with numbers, from 1: each name once. Contracts see it as the list of the names in number order.
#[derive(Drop)]
pub struct Numbering {
    in_number_order: Vec<u32>,
    // the same names ascending, and beside each its number
    ascending: Vec<u32>,
    numbers: Vec<u32>,
}

impl Model for Numbering {
    ghost use Rattle.std.specs.Prelude.{ℕ, List};
    ghost use Rattle.dl_numbers.specs.Beside.{AreBeside};

    ghost Value = { List ℕ };

    ghost view = { λ numbering. numbering.in_number_order.items };

    ghost invariant = { λ numbering.
        AreBeside numbering.ascending.items numbering.numbers.items numbering.in_number_order.items };
}

impl Numbering {
    /// The numbers of names, by the rule. The names ascend strictly, and the closure tells which are below which, place
    /// for place. It fails only for want of memory.
    pub fn build(alloc: Global, names: &[u32], order: &Closure) -> Result<Numbering, NoMemory>
        requires ascending { IsStrictlyIncreasing names.now }
        requires as_many { length names.now ≡ order.now.nodes }
        ensures { IfOk result (λ numbered. IsByRule names.now (IsBelow names.now order.now) numbered) }
    {
        let mut ascending = Vec::with_capacity(alloc, order.nodes() as usize)?;
        ascending.extend_from_slice(names)?;
        let places = depth_first(alloc, order)?;
        let in_number_order = names_at(alloc, names, &places)?;
        let numbers = numbers_at(alloc, &places)?;
        Ok(Numbering {
            in_number_order,
            ascending,
            numbers,
        })
    }

    /// The number of a name, or `None` where it isn't among the names. It takes no memory.
    pub fn number(&self, name: u32) -> Option<u32>
        ensures number { MatchOption result (Contains self.now name → ⊥) (HasNumber self.now name) }
        ensures only { IfSome result (λ n. (m : ℕ) → HasNumber self.now name m → m ≡ n) }
        ensures few { IfSome result (λ n. n ≤ max_nodes) }
    {
        match self.ascending.binary_search(&name) {
            Ok(place) => Some(self.numbers[place]),
            Err(_) => None,
        }
    }

    /// How many names there are. It takes no memory.
    pub fn len(&self) -> u32
        ensures count { result ≡ length self.now }
        ensures few { result ≤ max_nodes }
    {
        self.in_number_order.len() as u32
    }

    /// The name with a number, which is from 1 to `len`. It takes no memory.
    pub fn name(&self, number: u32) -> u32
        requires from_one { 1 ≤ number }
        requires within { number ≤ length self.now }
        ensures { HasNumber self.now result number }
    {
        self.in_number_order[number as usize - 1]
    }
}

/// The names that stand at some places, one after the other. It fails only for want of memory.
fn names_at(alloc: Global, names: &[u32], places: &[u32]) -> Result<Vec<u32>, NoMemory>
    requires { All (λ place. place < length names.now) places.now }
    ensures { IfOk result (λ found.
        found.items ≡ map (λ place. get_or names.now place 0) places.now) }
{
    let mut found = Vec::with_capacity(alloc, places.len())?;
    for place in places {
        found.push(names[*place as usize])?;
    }
    Ok(found)
}

/// For each of some places, in number order, its number: it stands at that place. It fails only for want of memory.
fn numbers_at(alloc: Global, places: &[u32]) -> Result<Vec<u32>, NoMemory>
    requires within { All (λ place. place < length places.now) places.now }
    requires few { length places.now < 2 ^ 32 }
    ensures { IfOk result (λ numbers. AreAtPlaces places.now numbers.items) }
{
    let mut numbers = vec![in alloc; 0u32; places.len()]?;
    for i in 0..places.len() as u32 {
        numbers[places[i as usize] as usize] = i + 1;
    }
    Ok(numbers)
}
