ghost use Rattle.std.specs.Prelude.{◌≡◌, ℕ, List, ◌+◌, ◌<◌, ◌≤◌, ◌^◌, ◌↔◌, ◌⊎◌, length, All, Contains, IfOk, OnOk, IsTrue, IfSome, slice_get};
ghost use Rattle.std.specs.Bool.{OnTrue, OnFalse};
ghost use Rattle.std.specs.List.Sorted.{IsStrictlyIncreasing};
ghost use Rattle.dl_intervals.specs.Intervals.{Holds, IsIntervalList, HoldSame, IsFewest, EndBelow};
ghost use Rattle.dl_intervals.specs.Growing.{BeginBy, Adds, Merges, IsNext};

use crate::memory::NoMemory;
use std::alloc::{AllocError, Global};
use std::marker::Model;

/// A set of numbers below 2^31 as the fewest intervals that hold exactly them: sorted, disjoint and not touching.
/// Contracts see it as the list of its intervals, each as its first and its last number.
#[derive(Drop)]
pub struct Intervals {
    items: Vec<(u32, u32)>,
}

impl Model for Intervals {
    ghost Value = { List (ℕ × ℕ) };

    ghost view = { λ a. a.items.items };

    ghost invariant = { λ a. IsIntervalList a.items.items × EndBelow (2 ^ 31) a.items.items };
}

/// Whether the numbers ascend strictly and each is below 2^31: the condition of `Intervals::of`.
pub fn ascends(numbers: &[u32]) -> bool
    ensures { IsTrue result ↔
        (IsStrictlyIncreasing numbers.now × All (λ n. n < 2 ^ 31) numbers.now) }
{
    for (i, number) in numbers.iter().enumerate() {
        if *number >= 1 << 31 {
            return false;
        }
        if i > 0 && *number <= numbers[i - 1] {
            return false;
        }
    }
    true
}

impl Intervals {
    /// The intervals of exactly these numbers. It fails only for want of memory.
    pub fn of(alloc: Global, numbers: &[u32]) -> Result<Intervals, NoMemory>
        requires ascending { IsStrictlyIncreasing numbers.now }
        requires small { All (λ n. n < 2 ^ 31) numbers.now }
        ensures numbers { IfOk result (λ is. (n : ℕ) → Holds is n ↔ Contains numbers.now n) }
        ensures sorted { IfOk result IsIntervalList }
        ensures fewest { IfOk result IsFewest }
    {
        let mut items = Vec::new(alloc);
        for number in numbers {
            add(&mut items, (*number, *number))?;
        }
        Ok(Intervals { items })
    }

    /// Whether the number stands in one of the intervals, by a binary search.
    pub fn contains(&self, n: u32) -> bool
        ensures { IsTrue result ↔ Holds self.now n }
    {
        let at = self.items.partition_point(|interval| interval.1 < n);
        at < self.items.len() && self.items[at].0 <= n
    }

    /// How many intervals there are.
    pub fn len(&self) -> u32
        ensures count { result ≡ length self.now }
        ensures sorted { IsIntervalList self.now }
    {
        self.items.len() as u32
    }

    /// The interval at an index, as its first and its last number.
    pub fn get(&self, i: u32) -> (u32, u32)
        requires { i < length self.now }
        ensures item { slice_get self.now i ≡ Some result }
        ensures small { result.1 < 2 ^ 31 }
        ensures inhabited { result.0 ≤ result.1 }
        ensures below_next { IfSome (slice_get self.now (i + 1)) (λ next. result.1 + 1 < next.0) }
    {
        self.items[i as usize]
    }

    /// The intervals of the numbers of both. It fails only for want of memory.
    pub fn union(&self, alloc: Global, other: &Intervals) -> Result<Intervals, NoMemory>
        ensures numbers { IfOk result (λ is.
            (n : ℕ) → Holds is n ↔ (Holds self.now n ⊎ Holds other.now n)) }
        ensures sorted { IfOk result IsIntervalList }
        ensures fewest { IfOk result IsFewest }
    {
        let items = merge(alloc, &self.items, &other.items)?;
        Ok(Intervals { items })
    }
}

/// A law: two interval lists that hold the same numbers are the same list, and no list of intervals that holds the
/// same numbers is shorter.
pub fn interval_lists_are_unique_and_fewest()
    ensures unique { (is js : List (ℕ × ℕ)) → IsIntervalList is → IsIntervalList js →
        HoldSame is js → is ≡ js }
    ensures fewest { (is : List (ℕ × ℕ)) → IsIntervalList is → IsFewest is }
{}

/// Adds an interval that begins no earlier than any that is there: to the last one where the two overlap or touch.
fn add(items: &mut Vec<(u32, u32)>, next: (u32, u32)) -> Result<(), AllocError>
    requires sorted { IsIntervalList items.old.items }
    requires small { EndBelow (2 ^ 31) items.old.items }
    requires later { BeginBy next.0 items.old.items }
    requires inhabited { next.0 ≤ next.1 }
    requires next_small { next.1 < 2 ^ 31 }
    ensures { OnOk result (Adds items.old.items next items.new.items) }
{
    let count = items.len();
    if count > 0 && next.0 <= items[count - 1].1 + 1 {
        let last = &mut items[count - 1];
        last.1 = last.1.max(next.1);
        return Ok(());
    }
    items.push(next)?;
    Ok(())
}

/// Whether the left list's interval goes on, where one of the two lists has one.
fn goes_left(left: &[(u32, u32)], i: usize, right: &[(u32, u32)], j: usize) -> bool
    requires left_range { i ≤ length left.now }
    requires some_left { (i < length left.now) ⊎ (j < length right.now) }
    requires right_range { j ≤ length right.now }
    ensures left { OnTrue result (IsNext left.now i right.now j) }
    ensures right { OnFalse result (IsNext right.now j left.now i) }
{
    if i == left.len() {
        return false;
    }
    if j == right.len() {
        return true;
    }
    left[i].0 <= right[j].0
}

/// Merges two interval lists, always going on with the interval that begins first.
fn merge(
    alloc: Global,
    left: &[(u32, u32)],
    right: &[(u32, u32)],
) -> Result<Vec<(u32, u32)>, AllocError>
    requires left_sorted { IsIntervalList left.now }
    requires left_small { EndBelow (2 ^ 31) left.now }
    requires right_sorted { IsIntervalList right.now }
    requires right_small { EndBelow (2 ^ 31) right.now }
    ensures { IfOk result (λ is.
        Merges left.now (length left.now) right.now (length right.now) is.items) }
{
    let mut items = Vec::new(alloc);
    let (mut i, mut j) = (0, 0);
    while i < left.len() || j < right.len() {
        if goes_left(left, i, right, j) {
            add(&mut items, left[i])?;
            i += 1;
        } else {
            add(&mut items, right[j])?;
            j += 1;
        }
    }
    Ok(items)
}
