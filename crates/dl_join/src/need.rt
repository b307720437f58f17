// What a probe asks of the names for variables, over sorted pairs, and how pairs are passed over.
ghost use Rattle.std.specs.Prelude.{◌≡◌, ℕ, ◌<◌, ◌≤◌, length};
ghost use Rattle.std.specs.List.{AllWithin, Contains};
ghost use Rattle.std.specs.List.Sorted.{IsNonDecreasingBy};
ghost use Rattle.dl_join.specs.Needs.{in_column, IsAscending, IsMoved};

use dl_terms::Pair;

/// A column of a list of pairs.
#[derive(Clone, Copy)]
pub enum Column {
    First,
    Second,
}

/// What a probe asks: that one of the pairs has the name for the variable `at` in the column, and, where there is
/// another variable, the name for that one in the second column.
#[derive(Clone, Copy)]
pub struct Need<'a> {
    pub at: u8,
    pub other: Option<u8>,
    pub column: Column,
    pub pairs: &'a [Pair],
}

/// A need, for as long as it is lent.
pub fn again<'a>(need: &'a Need<'_>) -> Need<'a>
    ensures { result ≡ need.now }
{
    Need {
        at: need.at,
        other: need.other,
        column: need.column,
        pairs: need.pairs,
    }
}

/// The name of a pair in a column.
pub fn name_in(pair: Pair, column: Column) -> u32
    ensures { result ≡ in_column column pair }
{
    match column {
        Column::First => pair.0,
        Column::Second => pair.1,
    }
}

/// How many pairs at the front have names below the bound: found by steps that grow eightfold, and then by halving.
pub fn passed(pairs: &[Pair], column: Column, bound: u64) -> usize
    requires { IsNonDecreasingBy (in_column column) pairs.now }
    ensures range { result ≤ length pairs.now }
    ensures below { AllWithin (λ p. in_column column p < bound) pairs.now 0 result }
    ensures others { AllWithin (λ p. bound ≤ in_column column p) pairs.now result (length pairs.now) }
{
    let (low, high) = leap(pairs, column, bound);
    halve(pairs, column, bound, low, high)
}

/// Steps that grow eightfold, from the front on, as long as they land below the bound.
fn leap(pairs: &[Pair], column: Column, bound: u64) -> (usize, usize)
    requires { IsNonDecreasingBy (in_column column) pairs.now }
    ensures order { result.0 ≤ result.1 }
    ensures range { result.1 ≤ length pairs.now }
    ensures below { AllWithin (λ p. in_column column p < bound) pairs.now 0 result.0 }
    ensures others { AllWithin (λ p. bound ≤ in_column column p) pairs.now result.1 (length pairs.now) }
{
    let mut low: usize = 0;
    let mut step: usize = 1;
    while step <= pairs.len() - low {
        let last = low + (step - 1);
        if u64::from(name_in(pairs[last], column)) >= bound {
            return (low, last);
        }
        low = last + 1;
        step = step.saturating_mul(8);
    }
    (low, pairs.len())
}

/// The place between the pairs below the bound and the others, which is between two places.
fn halve(pairs: &[Pair], column: Column, bound: u64, least: usize, most: usize) -> usize
    requires ascending { IsNonDecreasingBy (in_column column) pairs.now }
    requires order { least ≤ most }
    requires range { most ≤ length pairs.now }
    requires below { AllWithin (λ p. in_column column p < bound) pairs.now 0 least }
    requires others { AllWithin (λ p. bound ≤ in_column column p) pairs.now most (length pairs.now) }
    ensures range { result ≤ length pairs.now }
    ensures below { AllWithin (λ p. in_column column p < bound) pairs.now 0 result }
    ensures others { AllWithin (λ p. bound ≤ in_column column p) pairs.now result (length pairs.now) }
{
    let mut low = least;
    let mut high = most;
    while low < high {
        let middle = low + (high - low) / 2;
        if u64::from(name_in(pairs[middle], column)) < bound {
            low = middle + 1;
        } else {
            high = middle;
        }
    }
    low
}

/// The need over the pairs from the first on whose name is not below the bound.
pub fn moved<'a>(need: Need<'a>, bound: u64) -> Need<'a>
    requires { IsAscending need }
    ensures moved { IsMoved bound need.entry result }
    ensures ascending { IsAscending result }
    ensures floor { (p : ℕ × ℕ) → Contains result.pairs.now p → bound ≤ in_column result.column p }
{
    let skipped = passed(need.pairs, need.column, bound);
    Need {
        at: need.at,
        other: need.other,
        column: need.column,
        pairs: &need.pairs[skipped..],
    }
}
