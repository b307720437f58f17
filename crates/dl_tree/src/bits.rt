// Rows of bits over the roles of a hierarchy, in words of 64: the bit of each role's place.
ghost use Rattle.std.specs.Prelude.{◌≡◌, ℕ, ◌*◌, ◌<◌, ◌≤◌, ◌&&◌, ◌||◌, true, false, length, replicate, slice_index_or, IfOk, MatchOption};
ghost use Rattle.dl_reach.specs.Rows.{row_has};
ghost use Rattle.dl_tree.specs.Rows.{HasBit, TellsRow};

use dl_terms::{List, NoMemory};
use std::alloc::{AllocError, Global};

/// Whether a row has the bit of an index.
pub(crate) fn has_bit(row: &[u64], index: usize) -> bool
    ensures { result ≡ row_has row.now index }
{
    (word_at(row, index / 64) >> (index % 64)) & 1 == 1
}

/// The word of an index, or 0 past the end of the row.
fn word_at(row: &[u64], index: usize) -> u64
    ensures { result ≡ slice_index_or row.now index 0 }
{
    match row.get(index) {
        Some(word) => *word,
        None => 0,
    }
}

/// A row without bits, and room for so many.
pub(crate) fn empty(alloc: Global, places: usize) -> Result<Vec<u64>, AllocError>
    ensures wide { IfOk result (λ row. places ≤ 64 * length row.items) }
    ensures none { IfOk result (λ row. (i : ℕ) → row_has row.items i ≡ false) }
{
    words(alloc, places / 64 + 1, 0)
}

/// So many words that are all the same.
fn words(alloc: Global, count: usize, word: u64) -> Result<Vec<u64>, AllocError>
    ensures { IfOk result (λ row. row.items ≡ replicate count word) }
{
    vec![in alloc; word; count]
}

/// A row with so many bits.
pub(crate) fn full(alloc: Global, places: usize) -> Result<List<u64>, NoMemory>
    ensures { IfOk result (TellsRow places (λ _. true ≡ true)) }
{
    Ok(List::of(words(alloc, places / 64 + 1, u64::MAX)?))
}

/// The bits of a row, with room for so many.
pub(crate) fn copied(alloc: Global, row: &[u64], places: usize) -> Result<Vec<u64>, AllocError>
    ensures { IfOk result (λ copy. TellsRow places (HasBit row.now) copy.items) }
{
    let mut copy = empty(alloc, places)?;
    join(&mut copy, row);
    Ok(copy)
}

/// The same as a list.
pub(crate) fn list_of(alloc: Global, row: &[u64], places: usize) -> Result<List<u64>, NoMemory>
    ensures { IfOk result (TellsRow places (HasBit row.now)) }
{
    Ok(List::of(copied(alloc, row, places)?))
}

/// Leaves those bits that another row has too.
pub(crate) fn meet(row: &mut Vec<u64>, other: &[u64])
    ensures len { length row.new.items ≡ length row.old.items }
    ensures bits { (i : ℕ) → row_has row.new.items i ≡ (row_has row.old.items i && row_has other.now i) }
{
    for i in 0..row.len() {
        row[i] &= word_at(other, i);
    }
}

/// Puts the bits of another row to a row, as far as it has room.
pub(crate) fn join(row: &mut Vec<u64>, other: &[u64])
    ensures len { length row.new.items ≡ length row.old.items }
    ensures bits { (i : ℕ) → i < 64 * length row.old.items
        → row_has row.new.items i ≡ (row_has row.old.items i || row_has other.now i) }
{
    for i in 0..row.len().min(other.len()) {
        row[i] |= word_at(other, i);
    }
}

/// Leaves all bits, or those that another row has too.
pub(crate) fn keep(row: &mut Vec<u64>, all: bool, other: &[u64])
    ensures { (i : ℕ) → row_has row.new.items i ≡ (row_has row.old.items i && (all || row_has other.now i)) }
{
    if !all {
        meet(row, other);
    }
}

/// The first bit at or behind an index, among so many places. Words without bits are passed over at once.
pub(crate) fn next_bit(row: &[u64], from: usize, places: usize) -> Option<usize>
    ensures { MatchOption result
        ((k : ℕ) → from ≤ k → k < places → HasBit row.now k → ⊥)
        (λ i. (from ≤ i) × (i < places) × HasBit row.now i
        × ((k : ℕ) → from ≤ k → k < i → HasBit row.now k → ⊥)) }
{
    let mut i = from;
    while i < places {
        if has_bit(row, i) {
            return Some(i);
        }
        i = behind(row, i, places);
    }
    None
}

/// The next index behind one of so many places, or that of the next word where there are no bits in its word.
fn behind(row: &[u64], index: usize, places: usize) -> usize
    requires { index < places }
    ensures later { index < result }
    ensures none { (k : ℕ) → index < k → k < result → HasBit row.now k → ⊥ }
{
    if word_at(row, index / 64) == 0 {
        return index.saturating_add(64 - index % 64);
    }
    index + 1
}
